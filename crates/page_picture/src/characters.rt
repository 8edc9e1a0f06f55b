//! Which characters the codes of a symbol set stand for, by their numbers in Unicode.
ghost use Rattle.std.specs.Prelude.{◌≡◌};
ghost use Rattle.page_picture.specs.Characters.{
  character_in,
  character_of,
  entry,
  latin1_character,
  other_character,
  pc_character,
  repertoire_named,
  repertoire_of,
  roman8_character,
  windows_character,
};

use device_profile::{NamedSet, SymbolSet};

/// The characters of a symbol set.
#[derive(Clone, Copy)]
pub enum Repertoire {
    Ascii,
    Pc8,
    Pc850,
    Roman8,
    /// ECMA-94 Latin 1.
    Latin1,
    /// Windows Latin 1.
    Windows,
}

/// The characters of PC-8 and PC-850 below 32; 0 where a code has none.
pub(crate) const PC_BELOW_32: [u16; 32] = [
    0, 9786, 9787, 9829, 9830, 9827, 9824, 8226, 9688, 9675, 9689, 9794, 9792, 9834, 9835, 9788,
    9658, 9668, 8597, 8252, 182, 167, 9644, 8616, 8593, 8595, 8594, 8592, 8735, 8596, 9650, 9660,
];

/// The characters of PC-8 from 127 on.
pub(crate) const PC8_FROM_127: [u16; 129] = [
    8962, 199, 252, 233, 226, 228, 224, 229, 231, 234, 235, 232, 239, 238, 236, 196, 197, 201, 230,
    198, 244, 246, 242, 251, 249, 255, 214, 220, 162, 163, 165, 8359, 402, 225, 237, 243, 250, 241,
    209, 170, 186, 191, 8976, 172, 189, 188, 161, 171, 187, 9617, 9618, 9619, 9474, 9508, 9569,
    9570, 9558, 9557, 9571, 9553, 9559, 9565, 9564, 9563, 9488, 9492, 9524, 9516, 9500, 9472, 9532,
    9566, 9567, 9562, 9556, 9577, 9574, 9568, 9552, 9580, 9575, 9576, 9572, 9573, 9561, 9560, 9554,
    9555, 9579, 9578, 9496, 9484, 9608, 9604, 9612, 9616, 9600, 945, 223, 915, 960, 931, 963, 181,
    964, 934, 920, 937, 948, 8734, 966, 949, 8745, 8801, 177, 8805, 8804, 8992, 8993, 247, 8776,
    176, 8729, 183, 8730, 8319, 178, 9632, 160,
];

/// The characters of PC-850 from 127 on.
pub(crate) const PC850_FROM_127: [u16; 129] = [
    8962, 199, 252, 233, 226, 228, 224, 229, 231, 234, 235, 232, 239, 238, 236, 196, 197, 201, 230,
    198, 244, 246, 242, 251, 249, 255, 214, 220, 248, 163, 216, 215, 402, 225, 237, 243, 250, 241,
    209, 170, 186, 191, 174, 172, 189, 188, 161, 171, 187, 9617, 9618, 9619, 9474, 9508, 193, 194,
    192, 169, 9571, 9553, 9559, 9565, 162, 165, 9488, 9492, 9524, 9516, 9500, 9472, 9532, 227, 195,
    9562, 9556, 9577, 9574, 9568, 9552, 9580, 164, 240, 208, 202, 203, 200, 305, 205, 206, 207,
    9496, 9484, 9608, 9604, 166, 204, 9600, 211, 223, 212, 210, 245, 213, 181, 254, 222, 218, 219,
    217, 253, 221, 175, 180, 173, 177, 8215, 190, 182, 167, 247, 184, 176, 168, 183, 185, 179, 178,
    9632, 160,
];

/// The characters of Roman-8 from 160 on; 0 where a code has none.
pub(crate) const ROMAN8_FROM_160: [u16; 96] = [
    160, 192, 194, 200, 202, 203, 206, 207, 180, 715, 710, 168, 732, 217, 219, 8356, 175, 221, 253,
    176, 199, 231, 209, 241, 161, 191, 164, 163, 165, 167, 402, 162, 226, 234, 244, 251, 225, 233,
    243, 250, 224, 232, 242, 249, 228, 235, 246, 252, 197, 238, 216, 198, 229, 237, 248, 230, 196,
    236, 214, 220, 201, 239, 223, 212, 193, 195, 227, 208, 240, 205, 204, 211, 210, 213, 245, 352,
    353, 218, 376, 255, 222, 254, 183, 181, 182, 190, 8212, 188, 189, 170, 186, 171, 9632, 187,
    177, 0,
];

/// The characters of Windows Latin 1 from 128 to 159; 0 where a code has none.
pub const WINDOWS_FROM_128: [u16; 32] = [
    8364, 0, 8218, 402, 8222, 8230, 8224, 8225, 710, 8240, 352, 8249, 338, 0, 381, 0, 0, 8216,
    8217, 8220, 8221, 8226, 8211, 8212, 732, 8482, 353, 8250, 339, 0, 382, 376,
];

/// The characters of a symbol set that has a name, where they are known.
fn repertoire_named(named: NamedSet) -> Option<Repertoire>
    ensures { result ≡ repertoire_named named }
{
    match named {
        NamedSet::Ascii => Some(Repertoire::Ascii),
        NamedSet::Pc8 => Some(Repertoire::Pc8),
        NamedSet::Pc850 => Some(Repertoire::Pc850),
        NamedSet::Roman8 => Some(Repertoire::Roman8),
        NamedSet::Latin1 => Some(Repertoire::Latin1),
        NamedSet::Windows1 => Some(Repertoire::Windows),
        _ => None,
    }
}

/// The characters of a symbol set, where they are known.
#[tactic(auto, unfolding(crate::specs::Characters::repertoire_of))]
pub fn repertoire_of(set: SymbolSet) -> Option<Repertoire>
    ensures { result ≡ repertoire_of set }
{
    repertoire_named(NamedSet::of(set)?)
}

/// What a table has at a place, where that is not 0.
fn entry(table: &[u16], place: u8) -> Option<u16>
    ensures { result ≡ entry table.now place }
{
    match table.get(usize::from(place)) {
        None | Some(0) => None,
        Some(character) => Some(*character),
    }
}

/// What a code outside ASCII stands for in a set of PCs, of which this is the upper half.
#[tactic(auto, unfolding(crate::specs::Characters::pc_character))]
fn pc_character(from_127: &[u16], code: u8) -> Option<u16>
    ensures { result ≡ pc_character from_127.now code }
{
    if code < 32 {
        entry(&PC_BELOW_32, code)
    } else if code < 127 {
        None
    } else {
        entry(from_127, code - 127)
    }
}

#[tactic(auto, unfolding(crate::specs::Characters::roman8_character))]
fn roman8_character(code: u8) -> Option<u16>
    ensures { result ≡ roman8_character code }
{
    if code < 160 {
        None
    } else {
        entry(&ROMAN8_FROM_160, code - 160)
    }
}

#[tactic(auto, unfolding(crate::specs::Characters::latin1_character))]
fn latin1_character(code: u8) -> Option<u16>
    ensures { result ≡ latin1_character code }
{
    if code < 160 {
        None
    } else {
        Some(u16::from(code))
    }
}

#[tactic(auto, unfolding(crate::specs::Characters::windows_character))]
fn windows_character(code: u8) -> Option<u16>
    ensures { result ≡ windows_character code }
{
    if code < 128 {
        None
    } else if code < 160 {
        entry(&WINDOWS_FROM_128, code - 128)
    } else {
        Some(u16::from(code))
    }
}

/// What a code outside ASCII stands for.
fn other_character(repertoire: Repertoire, code: u8) -> Option<u16>
    ensures { result ≡ other_character repertoire code }
{
    match repertoire {
        Repertoire::Ascii => None,
        Repertoire::Pc8 => pc_character(&PC8_FROM_127, code),
        Repertoire::Pc850 => pc_character(&PC850_FROM_127, code),
        Repertoire::Roman8 => roman8_character(code),
        Repertoire::Latin1 => latin1_character(code),
        Repertoire::Windows => windows_character(code),
    }
}

/// What a code stands for in a symbol set, where it is known.
pub fn character_in(repertoire: Option<Repertoire>, code: u8) -> Option<u16>
    ensures { result ≡ character_in repertoire code }
{
    match repertoire {
        None => None,
        Some(_) if 32 <= code && code <= 126 => Some(u16::from(code)),
        Some(repertoire) => other_character(repertoire, code),
    }
}

/// What a code of a symbol set stands for, where it is known.
#[tactic(auto, unfolding(crate::specs::Characters::character_of))]
pub fn character_of(set: SymbolSet, code: u8) -> Option<u16>
    ensures { result ≡ character_of set code }
{
    character_in(repertoire_of(set), code)
}
