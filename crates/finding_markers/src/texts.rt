//! The parts of a report database that are the same for all findings.

ghost use Rattle.finding_markers.specs.Parts.{part_text};
ghost use Rattle.std.specs.Prelude.{◌≡◌};

/// How a report database begins: the categories, in the order in which findings come, and the one cell, which is what KLayout calls the main level of a layout in CIF.
pub const BEGIN: &str = "\
<?xml version=\"1.0\" encoding=\"utf-8\"?>
<report-database>
 <description>Findings of cellroute check</description>
 <original-file/>
 <generator>cellroute</generator>
 <top-cell>CIF_TOP</top-cell>
 <tags>
 </tags>
 <categories>
  <category>
   <name>Missing</name>
   <description>no cell has this instance's name</description>
   <categories>
   </categories>
  </category>
  <category>
   <name>Doubled</name>
   <description>a cell has the name of an earlier one</description>
   <categories>
   </categories>
  </category>
  <category>
   <name>Strange</name>
   <description>no instance has this cell's name</description>
   <categories>
   </categories>
  </category>
  <category>
   <name>Drawing</name>
   <description>the cell is not its module's drawing under its turn</description>
   <categories>
   </categories>
  </category>
  <category>
   <name>Overlap</name>
   <description>two outlines share an inner point</description>
   <categories>
   </categories>
  </category>
  <category>
   <name>OutOfRow</name>
   <description>two outlines have different lower edges and share an inner height</description>
   <categories>
   </categories>
  </category>
  <category>
   <name>Narrow</name>
   <description>a wire is narrower than its layer's width, or a cut is no square of the cut's size</description>
   <categories>
   </categories>
  </category>
  <category>
   <name>Close</name>
   <description>two shapes of one layer that are not joined are closer than the layer's space</description>
   <categories>
   </categories>
  </category>
  <category>
   <name>BareCut</name>
   <description>a cut, with what has to enclose it, does not lie in one shape of each wiring layer</description>
   <categories>
   </categories>
  </category>
  <category>
   <name>Open</name>
   <description>two pins of one net are not joined</description>
   <categories>
   </categories>
  </category>
  <category>
   <name>Short</name>
   <description>two pins of different nets are joined</description>
   <categories>
   </categories>
  </category>
 </categories>
 <cells>
  <cell>
   <name>CIF_TOP</name>
   <variant/>
   <references>
   </references>
  </cell>
 </cells>
 <items>
";

/// How it ends.
pub const END: &str = " </items>
</report-database>
";

/// How an item begins, before its category.
pub const ITEM: &str = "  <item>
   <tags/>
   <category>";

/// What stands between the category of an item and the words of its text.
pub const IN_CELL: &str = "\
</category>
   <cell>CIF_TOP</cell>
   <visited>false</visited>
   <multiplicity>1</multiplicity>
   <image/>
   <values>
    <value>text: '";

/// What stands behind the words.
pub const TEXT_END: &str = "\
'</value>
";

/// How an item ends.
pub const ITEM_END: &str = "   </values>
  </item>
";

/// A part of a report database that is the same for all findings.
#[derive(Clone, Copy, Debug)]
pub enum Part {
    Begin,
    End,
    Item,
    InCell,
    TextEnd,
    ItemEnd,
}

/// The text of a part.
#[tactic(auto, unfolding(crate::specs::Parts::part_text))]
pub(crate) fn text_of_part(part: Part) -> &'static [u8]
    ensures { result.now ≡ part_text part }
{
    match part {
        Part::Begin => BEGIN.as_bytes(),
        Part::End => END.as_bytes(),
        Part::Item => ITEM.as_bytes(),
        Part::InCell => IN_CELL.as_bytes(),
        Part::TextEnd => TEXT_END.as_bytes(),
        Part::ItemEnd => ITEM_END.as_bytes(),
    }
}
