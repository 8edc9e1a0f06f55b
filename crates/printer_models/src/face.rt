//! The resident faces of a generation of printers.
ghost use Rattle.std.specs.Prelude.{◌≡◌, ◌++◌, IfOk, OnOk};
ghost use Rattle.printer_models.specs.Face.{codes_in, courier, courier_faces, faces_of, in_sets};
ghost use Rattle.printer_models.specs.Face.{metrics, metrics_of, named_as, oldest_sets};
ghost use Rattle.printer_models.specs.Face.{other_faces, panel_sets, request_of, style_of};
ghost use Rattle.printer_models.specs.Face.{symbol_set_of, text_sets, typeface_name};
ghost use Rattle.printer_models.specs.Face.{typeface_number, typeface_value};
ghost use Rattle.printer_models.specs.Face.{usual_courier_faces, usual_sets, weight_of};

use device_profile::{CodeRange, FontRequest, NamedSet, SymbolSet};
use std::alloc::{AllocError, Allocator};

/// A symbol set that some face is in.
#[derive(Clone, Copy)]
pub enum CharacterSet {
    Roman8,
    Pc8,
    Pc850,
    /// ISO 8859-1.
    Latin1,
    /// Windows 3.1 Latin 1.
    Windows,
    Ascii,
}

/// A pitch and a height.
#[derive(Clone, Copy)]
pub enum Cut {
    /// 10 characters an inch, 12 points.
    Ten,
    /// 12 characters an inch, 10 points.
    Twelve,
    /// 12 characters an inch, 12 points.
    Elite,
    /// 16.67 characters an inch, 8.5 points.
    Small,
    /// The same by the pitch that the oldest printers have for it, 16.66.
    OldSmall,
}

/// How the letters stand.
#[derive(Clone, Copy)]
pub enum FaceLook {
    /// Upright, of medium weight.
    Medium,
    /// Upright and bold.
    Bold,
    /// Italic, of medium weight.
    Italic,
}

/// A design, by the number that selects it: Courier and Letter Gothic have two each.
#[derive(Clone, Copy)]
pub enum Typeface {
    Courier,
    BaseCourier,
    LinePrinter,
    LetterGothic,
    BaseLetterGothic,
}

/// All designs, by their numbers.
pub const TYPEFACES: [Typeface; 5] = [
    Typeface::LinePrinter,
    Typeface::BaseCourier,
    Typeface::BaseLetterGothic,
    Typeface::Courier,
    Typeface::LetterGothic,
];

/// What a pitch and a height are, and how their characters lie.
#[derive(Clone, Copy)]
pub struct Metrics {
    /// In ten-thousandths of a character an inch.
    pub pitch: u32,
    /// In ten-thousandths of a point.
    pub height: u32,
    /// How far a character moves the cursor, in 7200ths of an inch.
    pub advance: u32,
    /// How far it reaches above the baseline.
    pub ascent: u32,
    /// How far it reaches below the baseline.
    pub descent: u32,
}

/// A resident face.
#[derive(Clone, Copy)]
pub struct FaceRow {
    pub set: CharacterSet,
    pub cut: Cut,
    pub look: FaceLook,
    pub typeface: Typeface,
}

/// Printers that have the same faces in the same order.
#[derive(Clone, Copy)]
pub enum Generation {
    /// The LaserJet 4 and 4 Plus: the panel has Roman-8 at the factory.
    LaserJet4,
    /// From the LaserJet 5 on: it has PC-8.
    LaserJet5,
}

/// The sets that text is in.
const TEXT_SETS: &[CharacterSet] = &[
    CharacterSet::Roman8,
    CharacterSet::Pc8,
    CharacterSet::Latin1,
    CharacterSet::Windows,
    CharacterSet::Pc850,
];

const USUAL_SETS: &[CharacterSet] = &[
    CharacterSet::Roman8,
    CharacterSet::Pc8,
    CharacterSet::Windows,
];

const OLDEST_SETS: &[CharacterSet] = &[CharacterSet::Roman8, CharacterSet::Pc8];

/// Those that Courier has under its base number behind the panel's.
const OTHER_SETS: &[CharacterSet] = &[
    CharacterSet::Latin1,
    CharacterSet::Windows,
    CharacterSet::Pc850,
    CharacterSet::Ascii,
];

const ALL_SETS: &[CharacterSet] = &[
    CharacterSet::Roman8,
    CharacterSet::Pc8,
    CharacterSet::Latin1,
    CharacterSet::Windows,
    CharacterSet::Pc850,
    CharacterSet::Ascii,
];

const LINE_PRINTER_SETS: &[CharacterSet] = &[
    CharacterSet::Roman8,
    CharacterSet::Pc8,
    CharacterSet::Latin1,
    CharacterSet::Pc850,
];

impl CharacterSet {
    /// The set in the table of sets that have a name.
    fn named(self) -> NamedSet
        ensures { result ≡ named_as self }
    {
        match self {
            CharacterSet::Roman8 => NamedSet::Roman8,
            CharacterSet::Pc8 => NamedSet::Pc8,
            CharacterSet::Pc850 => NamedSet::Pc850,
            CharacterSet::Latin1 => NamedSet::Latin1,
            CharacterSet::Windows => NamedSet::Windows1,
            CharacterSet::Ascii => NamedSet::Ascii,
        }
    }

    /// The set as `ESC (` names it.
    pub fn symbol_set(self) -> SymbolSet
        ensures { result ≡ symbol_set_of self }
    {
        self.named().symbol_set()
    }

    /// The codes that print.
    pub fn codes(self) -> &'static [CodeRange]
        ensures { result.now ≡ codes_in self }
    {
        match self {
            CharacterSet::Roman8 => ROMAN_8_CODES,
            CharacterSet::Pc8 | CharacterSet::Pc850 => PC_CODES,
            CharacterSet::Latin1 => LATIN_1_CODES,
            CharacterSet::Windows => WINDOWS_CODES,
            CharacterSet::Ascii => ASCII_CODES,
        }
    }
}

const ASCII: CodeRange = CodeRange {
    first: 33,
    last: 126,
};

const ASCII_CODES: &[CodeRange] = &[ASCII];

const ROMAN_8_CODES: &[CodeRange] = &[
    ASCII,
    CodeRange {
        first: 161,
        last: 254,
    },
];

const PC_CODES: &[CodeRange] = &[
    ASCII,
    CodeRange {
        first: 128,
        last: 254,
    },
];

const LATIN_1_CODES: &[CodeRange] = &[
    ASCII,
    CodeRange {
        first: 161,
        last: 255,
    },
];

const WINDOWS_CODES: &[CodeRange] = &[
    ASCII,
    CodeRange {
        first: 130,
        last: 140,
    },
    CodeRange {
        first: 145,
        last: 156,
    },
    CodeRange {
        first: 159,
        last: 159,
    },
    CodeRange {
        first: 161,
        last: 255,
    },
];

impl Cut {
    /// What the pitch and the height are, and how the characters lie.
    pub fn metrics(self) -> Metrics
        ensures { result ≡ metrics_of self }
    {
        match self {
            Cut::Ten => Metrics::new(100_000, 120_000, 720, 900, 300),
            Cut::Twelve => Metrics::new(120_000, 100_000, 600, 750, 250),
            Cut::Elite => Metrics::new(120_000, 120_000, 600, 900, 300),
            Cut::Small => Metrics::new(166_700, 85_000, 432, 638, 213),
            Cut::OldSmall => Metrics::new(166_600, 85_000, 432, 638, 213),
        }
    }
}

impl Metrics {
    fn new(pitch: u32, height: u32, advance: u32, ascent: u32, descent: u32) -> Metrics
        ensures { result ≡ metrics pitch height advance ascent descent }
    {
        Metrics {
            pitch,
            height,
            advance,
            ascent,
            descent,
        }
    }
}

impl FaceLook {
    /// The style, as `ESC (s#S` numbers it.
    pub fn style(self) -> u8
        ensures { result ≡ style_of self }
    {
        match self {
            FaceLook::Medium | FaceLook::Bold => 0,
            FaceLook::Italic => 1,
        }
    }

    /// The stroke weight, as `ESC (s#B` numbers it.
    pub fn weight(self) -> u8
        ensures { result ≡ weight_of self }
    {
        match self {
            FaceLook::Medium | FaceLook::Italic => 0,
            FaceLook::Bold => 3,
        }
    }
}

impl Typeface {
    /// The typeface, as `ESC (s#T` numbers it.
    pub fn number(self) -> u16
        ensures { result ≡ typeface_number self }
    {
        match self {
            Typeface::Courier => 4_099,
            Typeface::BaseCourier => 3,
            Typeface::LinePrinter => 0,
            Typeface::LetterGothic => 4_102,
            Typeface::BaseLetterGothic => 6,
        }
    }

    /// The same in ten-thousandths, as a request has it.
    pub fn value(self) -> u32
        ensures { result ≡ typeface_value self }
    {
        u32::from(self.number()) * 10_000
    }

    /// The name of the design.
    pub fn name(self) -> &'static str
        ensures { result.now ≡ typeface_name self }
    {
        match self {
            Typeface::Courier | Typeface::BaseCourier => "Courier",
            Typeface::LinePrinter => "Line Printer",
            Typeface::LetterGothic | Typeface::BaseLetterGothic => "Letter Gothic",
        }
    }
}

impl FaceRow {
    /// What selects the face.
    pub fn request(self) -> FontRequest
        ensures { result ≡ request_of self }
    {
        let metrics = self.cut.metrics();
        FontRequest {
            symbol_set: self.set.symbol_set(),
            spacing: 0,
            pitch: metrics.pitch,
            height: metrics.height,
            style: u32::from(self.look.style()) * 10_000,
            weight: i32::from(self.look.weight()) * 10_000,
            typeface: self.typeface.value(),
        }
    }
}

impl Generation {
    /// The set that the panel has at the factory, and the one that it had in the other generation.
    fn panel_sets(self) -> &'static [CharacterSet]
        ensures { result.now ≡ panel_sets self }
    {
        match self {
            Generation::LaserJet4 => OLDEST_SETS,
            Generation::LaserJet5 => &[CharacterSet::Pc8, CharacterSet::Roman8],
        }
    }
}

/// The faces of a generation, in the order of their ids, which count from 1.
#[tactic(auto, unfolding(crate::specs::Face::faces_of))]
pub fn faces_of<A: Allocator>(
    alloc: A,
    generation: Generation,
) -> Result<Vec<FaceRow, A>, AllocError>
    ensures { IfOk result (λ faces. faces.items ≡ faces_of generation) }
{
    let mut faces = Vec::new(alloc);
    push_courier_faces(&mut faces, generation)?;
    push_other_faces(&mut faces)?;
    Ok(faces)
}

/// Appends the faces of Courier.
#[tactic(auto, unfolding(crate::specs::Face::courier_faces))]
fn push_courier_faces<A: Allocator>(
    faces: &mut Vec<FaceRow, A>,
    generation: Generation,
) -> Result<(), AllocError>
    ensures { OnOk result (faces.new.items ≡ faces.old.items ++ courier_faces generation) }
{
    use Cut::{Ten, Twelve};
    use FaceLook::{Bold, Italic, Medium};

    push_usual_courier_faces(faces, generation)?;
    push_courier(faces, Ten, Bold, TEXT_SETS)?;
    push_courier(faces, Twelve, Medium, TEXT_SETS)?;
    push_courier(faces, Ten, Italic, USUAL_SETS)?;
    push_courier(faces, Twelve, Bold, USUAL_SETS)
}

/// Appends the faces of Courier that are usual: 10 characters an inch, upright, of medium weight.
#[tactic(auto, unfolding(crate::specs::Face::usual_courier_faces))]
fn push_usual_courier_faces<A: Allocator>(
    faces: &mut Vec<FaceRow, A>,
    generation: Generation,
) -> Result<(), AllocError>
    ensures { OnOk result
        (faces.new.items ≡ faces.old.items ++ usual_courier_faces generation) }
{
    use Cut::Ten;
    use FaceLook::Medium;
    use Typeface::{BaseCourier, Courier};

    push(faces, Ten, Medium, BaseCourier, generation.panel_sets())?;
    push(faces, Ten, Medium, BaseCourier, OTHER_SETS)?;
    push(faces, Ten, Medium, Courier, ALL_SETS)
}

/// Appends the faces of Line Printer and Letter Gothic.
#[tactic(auto, unfolding(crate::specs::Face::other_faces))]
fn push_other_faces<A: Allocator>(faces: &mut Vec<FaceRow, A>) -> Result<(), AllocError>
    ensures { OnOk result (faces.new.items ≡ faces.old.items ++ other_faces) }
{
    use Cut::{Elite, OldSmall, Small};
    use FaceLook::{Bold, Medium};
    use Typeface::{BaseLetterGothic, LetterGothic, LinePrinter};

    push(faces, Small, Medium, LinePrinter, LINE_PRINTER_SETS)?;
    push(faces, OldSmall, Medium, LinePrinter, OLDEST_SETS)?;
    push(faces, Elite, Medium, LetterGothic, TEXT_SETS)?;
    push(faces, Elite, Bold, LetterGothic, OLDEST_SETS)?;
    push(faces, Elite, Medium, BaseLetterGothic, OLDEST_SETS)
}

/// Appends Courier under both of its numbers, in these sets.
#[tactic(auto, unfolding(crate::specs::Face::courier))]
fn push_courier<A: Allocator>(
    faces: &mut Vec<FaceRow, A>,
    cut: Cut,
    look: FaceLook,
    sets: &[CharacterSet],
) -> Result<(), AllocError>
    ensures { OnOk result (faces.new.items ≡ faces.old.items ++ courier cut look sets.now) }
{
    push(faces, cut, look, Typeface::Courier, sets)?;
    push(faces, cut, look, Typeface::BaseCourier, sets)
}

/// Appends a face in each of these sets.
#[tactic(auto, unfolding(crate::specs::Face::in_sets))]
fn push<A: Allocator>(
    faces: &mut Vec<FaceRow, A>,
    cut: Cut,
    look: FaceLook,
    typeface: Typeface,
    sets: &[CharacterSet],
) -> Result<(), AllocError>
    ensures { OnOk result
        (faces.new.items ≡ faces.old.items ++ in_sets cut look typeface sets.now) }
{
    for set in sets {
        faces.push(FaceRow {
            set: *set,
            cut,
            look,
            typeface,
        })?;
    }
    Ok(())
}
