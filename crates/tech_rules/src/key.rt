//! The keys of a rules file.
ghost use Rattle.std.specs.Option.{option_copied};
ghost use Rattle.std.specs.Prelude.{◌≡◌};
ghost use Rattle.tech_rules.specs.Keys.{name_of, section_of, word_of};

/// A key of a rules file. The keys stand in the order in which faults are sought; each is a field of `Rules` or of one of its
/// sections, where its range and its unit stand.
#[derive(Clone, Copy, Debug, PartialEq, Eq)]
pub enum Key {
    /// `version`
    Version,
    /// `yal`
    Yal,
    /// `decimals`, which is a key from version 2 on
    Decimals,
    /// `grid.column`
    GridColumn,
    /// `grid.track`
    GridTrack,
    /// `grid.centi`
    GridCenti,
    /// `grid.pin`
    GridPin,
    /// `horizontal.layer`
    HorizontalLayer,
    /// `horizontal.width`
    HorizontalWidth,
    /// `horizontal.space`
    HorizontalSpace,
    /// `vertical.layer`
    VerticalLayer,
    /// `vertical.width`
    VerticalWidth,
    /// `vertical.space`
    VerticalSpace,
    /// `cut.layer`
    CutLayer,
    /// `cut.size`
    CutSize,
    /// `cut.enclose`
    CutEnclose,
    /// `cut.space`
    CutSpace,
    /// `outline.layer`
    OutlineLayer,
    /// `anneal.temperature`
    AnnealTemperature,
    /// `anneal.stages`
    AnnealStages,
    /// `anneal.moves`
    AnnealMoves,
    /// `anneal.row_cost`
    AnnealRowCost,
    /// `anneal.length_cost`
    AnnealLengthCost,
    /// `anneal.start`, which may be absent
    AnnealStart,
}

impl Key {
    /// The table that the key stands in, as `grid`, or None for a key at the top of the file. Takes no memory.
    pub fn section(self) -> Option<&'static str>
        ensures { option_copied result ≡ section_of self }
    {
        match self {
            Key::Version | Key::Yal | Key::Decimals => None,
            Key::GridColumn | Key::GridTrack | Key::GridCenti | Key::GridPin => Some("grid"),
            Key::HorizontalLayer | Key::HorizontalWidth | Key::HorizontalSpace => Some(
                "horizontal",
            ),
            Key::VerticalLayer | Key::VerticalWidth | Key::VerticalSpace => Some("vertical"),
            Key::CutLayer | Key::CutSize | Key::CutEnclose | Key::CutSpace => Some("cut"),
            Key::OutlineLayer => Some("outline"),
            Key::AnnealTemperature
            | Key::AnnealStages
            | Key::AnnealMoves
            | Key::AnnealRowCost
            | Key::AnnealLengthCost
            | Key::AnnealStart => Some("anneal"),
        }
    }

    /// The key's word in its table, as `column`. Takes no memory.
    pub fn word(self) -> &'static str
        ensures { result.now ≡ word_of self }
    {
        match self {
            Key::Version => "version",
            Key::Yal => "yal",
            Key::Decimals => "decimals",
            Key::GridColumn => "column",
            Key::GridTrack => "track",
            Key::GridCenti => "centi",
            Key::GridPin => "pin",
            Key::HorizontalLayer | Key::VerticalLayer | Key::CutLayer | Key::OutlineLayer =>
                "layer",
            Key::HorizontalWidth | Key::VerticalWidth => "width",
            Key::HorizontalSpace | Key::VerticalSpace | Key::CutSpace => "space",
            Key::CutSize => "size",
            Key::CutEnclose => "enclose",
            Key::AnnealTemperature => "temperature",
            Key::AnnealStages => "stages",
            Key::AnnealMoves => "moves",
            Key::AnnealRowCost => "row_cost",
            Key::AnnealLengthCost => "length_cost",
            Key::AnnealStart => "start",
        }
    }

    /// The key's text, as `grid.column`. Takes no memory.
    pub fn name(self) -> &'static str
        ensures { result.now ≡ name_of self }
    {
        match self {
            Key::Version => "version",
            Key::Yal => "yal",
            Key::Decimals => "decimals",
            Key::GridColumn => "grid.column",
            Key::GridTrack => "grid.track",
            Key::GridCenti => "grid.centi",
            Key::GridPin => "grid.pin",
            Key::HorizontalLayer => "horizontal.layer",
            Key::HorizontalWidth => "horizontal.width",
            Key::HorizontalSpace => "horizontal.space",
            Key::VerticalLayer => "vertical.layer",
            Key::VerticalWidth => "vertical.width",
            Key::VerticalSpace => "vertical.space",
            Key::CutLayer => "cut.layer",
            Key::CutSize => "cut.size",
            Key::CutEnclose => "cut.enclose",
            Key::CutSpace => "cut.space",
            Key::OutlineLayer => "outline.layer",
            Key::AnnealTemperature => "anneal.temperature",
            Key::AnnealStages => "anneal.stages",
            Key::AnnealMoves => "anneal.moves",
            Key::AnnealRowCost => "anneal.row_cost",
            Key::AnnealLengthCost => "anneal.length_cost",
            Key::AnnealStart => "anneal.start",
        }
    }
}
