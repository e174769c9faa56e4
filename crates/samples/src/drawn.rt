//! The layout of a sample design, and its picture.

/// The layout of two buffers, `u1` and `u2`, that are joined, under the sample rules: 362 bytes, of which the last two are its end.
pub const TWO_JOINED: &str =
    "(cellroute 1);\nDS 1 1 1;\n9 BUF;\nL XP;\nB 800 4000 400 2000;\nL NP;\nB 300 400 400 3800;\nDF;\n91 u1;\nC 1 T 0 800;\n91 u2;\nC 1 T 800 800;\nL NP;\nB 300 1000 400 5300;\nB 300 1000 1200 5300;\nL NM;\nB 1200 300 800 5600;\nB 400 400 400 5600;\nL NP;\nB 400 400 400 5600;\nL NC;\nB 200 200 400 5600;\nL NM;\nB 400 400 1200 5600;\nL NP;\nB 400 400 1200 5600;\nL NC;\nB 200 200 1200 5600;\nE\n";

/// Its picture, with the layers named by what they are for.
pub const JOINED_PICTURE: &str = "\
<?xml version=\"1.0\" encoding=\"utf-8\"?>
<svg xmlns=\"http://www.w3.org/2000/svg\" version=\"1.1\" viewBox=\"0 0 1300 1060\">
 <style type=\"text/css\">
  text { font-family: monospace; }
  .shapes rect { fill-opacity: 0.6; }
  .cells rect { fill: none; pointer-events: all; }
  .layer-XP { fill: #e69f00; }
  .layer-NP { fill: #56b4e9; }
  .layer-NM { fill: #009e73; }
  .layer-NC { fill: #f0e442; }
 </style>
 <svg width=\"1000\" height=\"1000\" viewBox=\"0.000 0 16.000 50.000\">
  <svg x=\"0.000\" width=\"16.000\" height=\"50.000\" viewBox=\"0.000 0 16.000 50.000\">
   <g class=\"shapes\">
    <rect class=\"layer-XP\" x=\"0.000\" y=\"10.000\" width=\"8.000\" height=\"40.000\"/>
    <rect class=\"layer-NP\" x=\"2.500\" y=\"10.000\" width=\"3.000\" height=\"4.000\"/>
    <rect class=\"layer-XP\" x=\"8.000\" y=\"10.000\" width=\"8.000\" height=\"40.000\"/>
    <rect class=\"layer-NP\" x=\"10.500\" y=\"10.000\" width=\"3.000\" height=\"4.000\"/>
    <rect class=\"layer-NP\" x=\"2.500\" y=\"0.000\" width=\"3.000\" height=\"10.000\"/>
    <rect class=\"layer-NP\" x=\"10.500\" y=\"0.000\" width=\"3.000\" height=\"10.000\"/>
    <rect class=\"layer-NM\" x=\"2.000\" y=\"0.500\" width=\"12.000\" height=\"3.000\"/>
    <rect class=\"layer-NM\" x=\"2.000\" y=\"0.000\" width=\"4.000\" height=\"4.000\"/>
    <rect class=\"layer-NP\" x=\"2.000\" y=\"0.000\" width=\"4.000\" height=\"4.000\"/>
    <rect class=\"layer-NC\" x=\"3.000\" y=\"1.000\" width=\"2.000\" height=\"2.000\"/>
    <rect class=\"layer-NM\" x=\"10.000\" y=\"0.000\" width=\"4.000\" height=\"4.000\"/>
    <rect class=\"layer-NP\" x=\"10.000\" y=\"0.000\" width=\"4.000\" height=\"4.000\"/>
    <rect class=\"layer-NC\" x=\"11.000\" y=\"1.000\" width=\"2.000\" height=\"2.000\"/>
   </g>
   <g class=\"cells\">
    <g>
     <title>u1</title>
     <rect x=\"0.000\" y=\"10.000\" width=\"8.000\" height=\"40.000\"/>
     <text x=\"0.000\" y=\"50.000\" dy=\"-0.25em\" font-size=\"3.335\">u1</text>
    </g>
    <g>
     <title>u2</title>
     <rect x=\"8.000\" y=\"10.000\" width=\"8.000\" height=\"40.000\"/>
     <text x=\"8.000\" y=\"50.000\" dy=\"-0.25em\" font-size=\"3.335\">u2</text>
    </g>
   </g>
  </svg>
 </svg>
 <svg class=\"scale\" y=\"1010\" width=\"1000\" height=\"1000\" viewBox=\"0 0 50.000 50.000\">
  <rect width=\"2.000\" height=\"0.505\"/>
 </svg>
 <text y=\"1045\" font-size=\"20\">2.000 &#181;m</text>
 <text class=\"legend\" font-size=\"16\">
  <tspan class=\"layer-XP\" x=\"1010\" dy=\"20\">&#9632;</tspan> XP outline
  <tspan class=\"layer-NP\" x=\"1010\" dy=\"20\">&#9632;</tspan> NP vertical
  <tspan class=\"layer-NM\" x=\"1010\" dy=\"20\">&#9632;</tspan> NM horizontal
  <tspan class=\"layer-NC\" x=\"1010\" dy=\"20\">&#9632;</tspan> NC via
 </text>
</svg>
";
