//! The symbol sets that have a name.
ghost use Rattle.std.specs.Prelude.{◌≡◌, find};
ghost use Rattle.std.specs.Str.{bytes_eq};
ghost use Rattle.device_profile.specs.NamedSet.{is_set, name_of, named_by, set_named, set_of};
ghost use Rattle.device_profile.specs.NamedSet.{symbols_of, word_of};

use crate::font::SymbolSet;

/// A symbol set that the job language has a name for.
#[derive(Clone, Copy)]
pub enum NamedSet {
    /// 8U.
    Roman8,
    /// 0N.
    Latin1,
    /// 2N.
    Latin2,
    /// 5N.
    Latin5,
    /// 6N.
    Latin6,
    /// 9N.
    Latin9,
    /// 10U.
    Pc8,
    /// 11U.
    Pc8Danish,
    /// 12U.
    Pc850,
    /// 17U.
    Pc852,
    /// 9T.
    Pc8Turkish,
    /// 13U.
    Pc858,
    /// 19U.
    Windows1,
    /// 9E.
    Windows2,
    /// 5T.
    Windows5,
    /// 9U.
    Windows30,
    /// 0U.
    Ascii,
    /// 1U.
    Legal,
    /// 7J.
    DeskTop,
    /// 10J.
    PsText,
    /// 6J.
    MsPublishing,
    /// 12J.
    McText,
    /// 14J.
    VenturaUs,
    /// 13J.
    VenturaInternational,
}

/// All of them.
const NAMED_SETS: [NamedSet; 24] = [
    NamedSet::Roman8,
    NamedSet::Latin1,
    NamedSet::Latin2,
    NamedSet::Latin5,
    NamedSet::Latin6,
    NamedSet::Latin9,
    NamedSet::Pc8,
    NamedSet::Pc8Danish,
    NamedSet::Pc850,
    NamedSet::Pc852,
    NamedSet::Pc8Turkish,
    NamedSet::Pc858,
    NamedSet::Windows1,
    NamedSet::Windows2,
    NamedSet::Windows5,
    NamedSet::Windows30,
    NamedSet::Ascii,
    NamedSet::Legal,
    NamedSet::DeskTop,
    NamedSet::PsText,
    NamedSet::MsPublishing,
    NamedSet::McText,
    NamedSet::VenturaUs,
    NamedSet::VenturaInternational,
];

impl NamedSet {
    /// The name in the job language.
    pub fn word(self) -> &'static str
        ensures { result.now ≡ word_of self }
    {
        match self {
            NamedSet::Roman8 => "ROMAN8",
            NamedSet::Latin1 => "ISOL1",
            NamedSet::Latin2 => "ISOL2",
            NamedSet::Latin5 => "ISOL5",
            NamedSet::Latin6 => "ISOL6",
            NamedSet::Latin9 => "ISOL9",
            NamedSet::Pc8 => "PC8",
            NamedSet::Pc8Danish => "PC8DN",
            NamedSet::Pc850 => "PC850",
            NamedSet::Pc852 => "PC852",
            NamedSet::Pc8Turkish => "PC8TK",
            NamedSet::Pc858 => "PC858",
            NamedSet::Windows1 => "WINL1",
            NamedSet::Windows2 => "WINL2",
            NamedSet::Windows5 => "WINL5",
            NamedSet::Windows30 => "WIN30",
            NamedSet::Ascii => "ISO6",
            NamedSet::Legal => "LEGAL",
            NamedSet::DeskTop => "DESKTOP",
            NamedSet::PsText => "PSTEXT",
            NamedSet::MsPublishing => "MSPUBL",
            NamedSet::McText => "MCTEXT",
            NamedSet::VenturaUs => "VNUS",
            NamedSet::VenturaInternational => "VNINTL",
        }
    }

    /// The set as `ESC (` names it.
    pub fn symbol_set(self) -> SymbolSet
        ensures { result ≡ symbols_of self }
    {
        match self {
            NamedSet::Roman8 => symbol_set(8, b'U'),
            NamedSet::Latin1 => symbol_set(0, b'N'),
            NamedSet::Latin2 => symbol_set(2, b'N'),
            NamedSet::Latin5 => symbol_set(5, b'N'),
            NamedSet::Latin6 => symbol_set(6, b'N'),
            NamedSet::Latin9 => symbol_set(9, b'N'),
            NamedSet::Pc8 => symbol_set(10, b'U'),
            NamedSet::Pc8Danish => symbol_set(11, b'U'),
            NamedSet::Pc850 => symbol_set(12, b'U'),
            NamedSet::Pc852 => symbol_set(17, b'U'),
            NamedSet::Pc8Turkish => symbol_set(9, b'T'),
            NamedSet::Pc858 => symbol_set(13, b'U'),
            NamedSet::Windows1 => symbol_set(19, b'U'),
            NamedSet::Windows2 => symbol_set(9, b'E'),
            NamedSet::Windows5 => symbol_set(5, b'T'),
            NamedSet::Windows30 => symbol_set(9, b'U'),
            NamedSet::Ascii => symbol_set(0, b'U'),
            NamedSet::Legal => symbol_set(1, b'U'),
            NamedSet::DeskTop => symbol_set(7, b'J'),
            NamedSet::PsText => symbol_set(10, b'J'),
            NamedSet::MsPublishing => symbol_set(6, b'J'),
            NamedSet::McText => symbol_set(12, b'J'),
            NamedSet::VenturaUs => symbol_set(14, b'J'),
            NamedSet::VenturaInternational => symbol_set(13, b'J'),
        }
    }

    /// The name for people; empty where they know the set by its number and letter alone.
    pub fn name(self) -> &'static [u8]
        ensures { result.now ≡ name_of self }
    {
        match self {
            NamedSet::Roman8 => b"Roman-8",
            NamedSet::Latin1 => b"ISO 8859-1 Latin 1",
            NamedSet::Latin2 => b"ISO 8859-2 Latin 2",
            NamedSet::Latin5 => b"ISO 8859-9 Latin 5",
            NamedSet::Latin6 => b"ISO 8859-10 Latin 6",
            NamedSet::Latin9 => b"ISO 8859-15 Latin 9",
            NamedSet::Pc8 => b"PC-8",
            NamedSet::Pc8Danish => b"PC-8 D/N",
            NamedSet::Pc850 => b"PC-850",
            NamedSet::Pc852 => b"PC-852",
            NamedSet::Windows1 => b"Windows Latin 1",
            NamedSet::Windows30 => b"Windows 3.0 Latin 1",
            NamedSet::Ascii => b"ASCII",
            _ => b"",
        }
    }

    /// The set of a name in the job language.
    #[tactic(auto, unfolding(crate::specs::NamedSet::set_named))]
    pub fn named(word: &[u8]) -> Option<NamedSet>
        ensures { result ≡ set_named word.now }
    {
        first_named(&NAMED_SETS, word)
    }

    /// The set of a number and a letter, where it has a name.
    #[tactic(auto, unfolding(crate::specs::NamedSet::named_by))]
    pub fn of(set: SymbolSet) -> Option<NamedSet>
        ensures { result ≡ named_by set }
    {
        first_of(&NAMED_SETS, set)
    }
}

/// The first of these that has a name in the job language.
fn first_named(sets: &[NamedSet], word: &[u8]) -> Option<NamedSet>
    ensures { result ≡ find (λ set. bytes_eq (word_of set) word.now) sets.now }
{
    sets.iter()
        .copied()
        .find(|set| set.word().as_bytes() == word)
}

/// The first of these that has a number and a letter.
fn first_of(sets: &[NamedSet], set: SymbolSet) -> Option<NamedSet>
    ensures { result ≡ find (is_set set) sets.now }
{
    sets.iter().copied().find(|known| is_set(*known, set))
}

/// Whether a set has a number and a letter.
#[tactic(auto, unfolding(crate::specs::NamedSet::is_set))]
fn is_set(known: NamedSet, set: SymbolSet) -> bool
    ensures { result ≡ is_set set known }
{
    let own = known.symbol_set();
    own.number == set.number && own.letter == set.letter
}

/// The set of a number and a letter.
fn symbol_set(number: u8, letter: u8) -> SymbolSet
    ensures { result ≡ set_of number letter }
{
    SymbolSet {
        number: u32::from(number) * 10_000,
        letter,
    }
}
