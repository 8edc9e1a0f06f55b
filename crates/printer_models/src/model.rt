//! The models of printers.
ghost use Rattle.std.specs.Prelude.{◌≡◌, find};
ghost use Rattle.std.specs.Str.{bytes_eq};
ghost use Rattle.printer_models.specs.Model.{facts, facts_of, model_named};

use crate::face::Generation;
use crate::paper::{PAPERS, Paper};

/// A model of a printer.
#[derive(Clone, Copy)]
pub enum Model {
    HpLaserJet4,
    HpLaserJet4Plus,
    HpLaserJet5,
    HpLaserJet5Si,
    HpLaserJet4000,
    HpLaserJet4200,
    HpLaserJet4250,
    HpLaserJet5000,
    HpLaserJet8000,
    HpLaserJet9000,
    HpLaserJetP3005,
    HpLaserJetP3015,
    HpLaserJetM605,
    BrotherHl5350Dn,
    KyoceraFs1020D,
    LexmarkMs520,
    RicohSp3710Dn,
    Generic,
}

/// All models, in the order in which they are listed.
pub const MODELS: [Model; 18] = [
    Model::HpLaserJet4,
    Model::HpLaserJet4Plus,
    Model::HpLaserJet5,
    Model::HpLaserJet5Si,
    Model::HpLaserJet4000,
    Model::HpLaserJet4200,
    Model::HpLaserJet4250,
    Model::HpLaserJet5000,
    Model::HpLaserJet8000,
    Model::HpLaserJet9000,
    Model::HpLaserJetP3005,
    Model::HpLaserJetP3015,
    Model::HpLaserJetM605,
    Model::BrotherHl5350Dn,
    Model::KyoceraFs1020D,
    Model::LexmarkMs520,
    Model::RicohSp3710Dn,
    Model::Generic,
];

/// What is known of a model.
#[derive(Clone, Copy)]
pub struct ModelRow {
    /// The word by which it is asked for, which is the printer's name in its profile.
    pub word: &'static str,
    /// What it is.
    pub title: &'static str,
    /// Which faces it has.
    pub generation: Generation,
    /// The papers that it can have.
    pub papers: &'static [Paper],
    /// Its trays, as `ESC &l#H` numbers them.
    pub device_trays: &'static [u32],
    /// Those from which it takes paper by itself, the usual one first.
    pub panel_trays: &'static [u32],
    /// Whether it can print on both sides.
    pub has_duplex: bool,
    /// A guess of the bytes that its macros may have.
    pub memory: u32,
    /// In a profile's comments: what tells the papers.
    pub papers_from: &'static str,
    /// In a profile's comments: which trays the numbers are.
    pub tray_words: &'static str,
}

impl Model {
    /// What is known of the model.
    pub fn row(self) -> &'static ModelRow
        ensures word { result.now.word.now ≡ (facts_of self).word }
        ensures title { result.now.title.now ≡ (facts_of self).title }
        ensures generation { result.now.generation ≡ (facts_of self).generation }
        ensures papers { result.now.papers.now ≡ (facts_of self).papers }
        ensures trays { result.now.device_trays.now ≡ (facts_of self).device_trays }
        ensures panel_trays { result.now.panel_trays.now ≡ (facts_of self).panel_trays }
        ensures duplex { result.now.has_duplex ≡ (facts_of self).has_duplex }
        ensures memory { result.now.memory ≡ (facts_of self).memory }
    {
        self.table_row()
    }

    /// The model's row of the table.
    fn table_row(self) -> &'static ModelRow
        ensures { facts
            result.now.word.now
            result.now.title.now
            result.now.generation
            result.now.papers.now
            result.now.device_trays.now
            result.now.panel_trays.now
            result.now.has_duplex
            result.now.memory
            ≡ facts_of self }
    {
        match self {
            Model::HpLaserJet4 => &HP_LASERJET_4,
            Model::HpLaserJet4Plus => &HP_LASERJET_4_PLUS,
            Model::HpLaserJet5 => &HP_LASERJET_5,
            Model::HpLaserJet5Si => &HP_LASERJET_5SI,
            Model::HpLaserJet4000 => &HP_LASERJET_4000,
            Model::HpLaserJet4200 => &HP_LASERJET_4200,
            Model::HpLaserJet4250 => &HP_LASERJET_4250,
            Model::HpLaserJet5000 => &HP_LASERJET_5000,
            Model::HpLaserJet8000 => &HP_LASERJET_8000,
            Model::HpLaserJet9000 => &HP_LASERJET_9000,
            Model::HpLaserJetP3005 => &HP_LASERJET_P3005,
            Model::HpLaserJetP3015 => &HP_LASERJET_P3015,
            Model::HpLaserJetM605 => &HP_LASERJET_M605,
            Model::BrotherHl5350Dn => &BROTHER_HL_5350DN,
            Model::KyoceraFs1020D => &KYOCERA_FS_1020D,
            Model::LexmarkMs520 => &LEXMARK_MS520,
            Model::RicohSp3710Dn => &RICOH_SP_3710DN,
            Model::Generic => &GENERIC,
        }
    }

    /// The model of a word.
    pub fn named(word: &str) -> Option<Model>
        ensures { result ≡ model_named word.now }
    {
        first_named(&MODELS, word)
    }
}

/// The first of these models that has a word.
fn first_named(models: &[Model], word: &str) -> Option<Model>
    ensures { result ≡ find (λ model. bytes_eq (facts_of model).word word.now) models.now }
{
    models
        .iter()
        .copied()
        .find(|model| model.row().word == word)
}

const FIRST_PAPERS: &[Paper] = &[
    Paper::Executive,
    Paper::Letter,
    Paper::Legal,
    Paper::A4,
    Paper::Monarch,
    Paper::Com10,
    Paper::Dl,
    Paper::C5,
    Paper::B5,
];

const PAPERS_WITH_A5: &[Paper] = &[
    Paper::Executive,
    Paper::Letter,
    Paper::Legal,
    Paper::A5,
    Paper::A4,
    Paper::JisB5,
    Paper::Monarch,
    Paper::Com10,
    Paper::Dl,
    Paper::C5,
    Paper::B5,
];

const PAPERS_WITH_A6: &[Paper] = &[
    Paper::Executive,
    Paper::Letter,
    Paper::Legal,
    Paper::A6,
    Paper::A5,
    Paper::A4,
    Paper::JisB5,
    Paper::Monarch,
    Paper::Com10,
    Paper::Dl,
    Paper::C5,
    Paper::B5,
];

const WIDE_PAPERS: &[Paper] = &[
    Paper::Executive,
    Paper::Letter,
    Paper::Legal,
    Paper::Ledger,
    Paper::A5,
    Paper::A4,
    Paper::A3,
    Paper::JisB5,
    Paper::JisB4,
    Paper::Monarch,
    Paper::Com10,
    Paper::Dl,
    Paper::C5,
    Paper::B5,
];

const PAPERS_OF_5SI: &[Paper] = &[
    Paper::Executive,
    Paper::Letter,
    Paper::Legal,
    Paper::Ledger,
    Paper::A4,
    Paper::A3,
    Paper::JisB5,
    Paper::JisB4,
    Paper::Monarch,
    Paper::Com10,
    Paper::Dl,
    Paper::C5,
    Paper::B5,
];

const PAPERS_OF_BROTHER: &[Paper] = &[
    Paper::Executive,
    Paper::Letter,
    Paper::Legal,
    Paper::A6,
    Paper::A5,
    Paper::A4,
    Paper::Monarch,
    Paper::Com10,
    Paper::Dl,
    Paper::C5,
    Paper::B5,
];

const PAPERS_OF_KYOCERA: &[Paper] = &[
    Paper::Executive,
    Paper::Letter,
    Paper::Legal,
    Paper::A6,
    Paper::A5,
    Paper::A4,
];

const PAPERS_OF_RICOH: &[Paper] = &[
    Paper::Letter,
    Paper::Legal,
    Paper::A5,
    Paper::A4,
    Paper::Monarch,
    Paper::Com10,
    Paper::Dl,
    Paper::C5,
];

const FIVE_TRAYS: &[u32] = &[1, 2, 3, 4, 5];

const SIX_TRAYS: &[u32] = &[1, 2, 3, 4, 5, 6];

const ONE_AND_FOUR: &[u32] = &[1, 4];

const ONE_AND_EIGHT: &[u32] = &[1, 8];

/// The trays of the LaserJet 4200, which the 4250 has, too.
const TRAYS_OF_4200: &str = "\
1 tray 2, 2 manual feed, 3 manual feed of envelopes, 4 tray 1, 5 tray 3 (option), 6 the\n\
#   envelope feeder (option), 20 tray 4 (option)";

const HP_LASERJET_4: ModelRow = ModelRow {
    word: "hp-laserjet-4",
    title: "HP LaserJet 4",
    generation: Generation::LaserJet4,
    papers: FIRST_PAPERS,
    device_trays: SIX_TRAYS,
    panel_trays: ONE_AND_FOUR,
    has_duplex: false,
    memory: 1_048_576,
    papers_from: "\
the PostScript PPD of the LaserJet 4 Plus (HPLIP 3.22.10), the\n\
#   nearest that was had",
    tray_words: "\
1 the cassette, 2 manual feed, 3 manual feed of envelopes, 4 the MP tray, 5 the lower\n\
#   cassette (option), 6 the envelope feeder (option)",
};

const HP_LASERJET_4_PLUS: ModelRow = ModelRow {
    word: "hp-laserjet-4-plus",
    title: "HP LaserJet 4 Plus",
    generation: Generation::LaserJet4,
    papers: FIRST_PAPERS,
    device_trays: SIX_TRAYS,
    panel_trays: ONE_AND_FOUR,
    has_duplex: true,
    memory: 1_048_576,
    papers_from: "its PostScript PPD (HPLIP 3.22.10)",
    tray_words: "\
1 the cassette, 2 manual feed, 3 manual feed of envelopes, 4 the MP tray, 5 the lower\n\
#   cassette (option), 6 the envelope feeder (option)",
};

const HP_LASERJET_5: ModelRow = ModelRow {
    word: "hp-laserjet-5",
    title: "HP LaserJet 5",
    generation: Generation::LaserJet5,
    papers: FIRST_PAPERS,
    device_trays: SIX_TRAYS,
    panel_trays: ONE_AND_FOUR,
    has_duplex: false,
    memory: 1_048_576,
    papers_from: "\
the PostScript PPD of the LaserJet 4 Plus (HPLIP 3.22.10), which has\n\
#   the same engine",
    tray_words: "\
1 the cassette (tray 2), 2 manual feed, 3 manual feed of envelopes, 4 the MP tray (tray\n\
#   1), 5 the lower cassette (option), 6 the envelope feeder (option)",
};

const HP_LASERJET_5SI: ModelRow = ModelRow {
    word: "hp-laserjet-5si",
    title: "HP LaserJet 5Si",
    generation: Generation::LaserJet5,
    papers: PAPERS_OF_5SI,
    device_trays: &[1, 2, 3, 4, 5, 6, 20],
    panel_trays: ONE_AND_FOUR,
    has_duplex: true,
    memory: 1_048_576,
    papers_from: "its PostScript PPD (HPLIP 3.22.10)",
    tray_words: "\
1 tray 2, 2 manual feed, 3 manual feed of envelopes, 4 tray 1, 5 tray 3, 6 the envelope\n\
#   feeder (option), 20 tray 4 (option)",
};

const HP_LASERJET_4000: ModelRow = ModelRow {
    word: "hp-laserjet-4000",
    title: "HP LaserJet 4000",
    generation: Generation::LaserJet5,
    papers: PAPERS_WITH_A5,
    device_trays: SIX_TRAYS,
    panel_trays: ONE_AND_FOUR,
    has_duplex: true,
    memory: 1_048_576,
    papers_from: "its PostScript PPD (HPLIP 3.22.10)",
    tray_words: "\
1 tray 2, 2 manual feed, 3 manual feed of envelopes, 4 tray 1, 5 tray 3 (option), 6 the\n\
#   envelope feeder (option)",
};

const HP_LASERJET_4200: ModelRow = ModelRow {
    word: "hp-laserjet-4200",
    title: "HP LaserJet 4200",
    generation: Generation::LaserJet5,
    papers: PAPERS_WITH_A5,
    device_trays: &[1, 2, 3, 4, 5, 6, 20],
    panel_trays: ONE_AND_FOUR,
    has_duplex: true,
    memory: 1_048_576,
    papers_from: "its PostScript PPD (HPLIP 3.22.10)",
    tray_words: TRAYS_OF_4200,
};

const HP_LASERJET_4250: ModelRow = ModelRow {
    word: "hp-laserjet-4250",
    title: "HP LaserJet 4250",
    generation: Generation::LaserJet5,
    papers: PAPERS_WITH_A5,
    device_trays: &[1, 2, 3, 4, 5, 6, 20],
    panel_trays: ONE_AND_FOUR,
    has_duplex: true,
    memory: 1_048_576,
    papers_from: "its PostScript PPD (HPLIP 3.22.10)",
    tray_words: TRAYS_OF_4200,
};

const HP_LASERJET_5000: ModelRow = ModelRow {
    word: "hp-laserjet-5000",
    title: "HP LaserJet 5000",
    generation: Generation::LaserJet5,
    papers: &PAPERS,
    device_trays: FIVE_TRAYS,
    panel_trays: ONE_AND_FOUR,
    has_duplex: true,
    memory: 1_048_576,
    papers_from: "its PostScript PPD (HPLIP 3.22.10)",
    tray_words: "\
1 tray 2, 2 manual feed, 3 manual feed of envelopes, 4 tray 1, 5 tray 3 (option)",
};

const HP_LASERJET_8000: ModelRow = ModelRow {
    word: "hp-laserjet-8000",
    title: "HP LaserJet 8000",
    generation: Generation::LaserJet5,
    papers: WIDE_PAPERS,
    device_trays: &[1, 2, 3, 4, 5, 6, 20, 21],
    panel_trays: ONE_AND_FOUR,
    has_duplex: true,
    memory: 1_048_576,
    papers_from: "its PostScript PPD (HPLIP 3.22.10)",
    tray_words: "\
1 tray 2, 2 manual feed, 3 manual feed of envelopes, 4 tray 1, 5 tray 3, 6 the envelope\n\
#   feeder (option), 20 and 21 trays 4 and 5 (options)",
};

const HP_LASERJET_9000: ModelRow = ModelRow {
    word: "hp-laserjet-9000",
    title: "HP LaserJet 9000",
    generation: Generation::LaserJet5,
    papers: WIDE_PAPERS,
    device_trays: &[1, 2, 3, 4, 5, 20],
    panel_trays: ONE_AND_FOUR,
    has_duplex: true,
    memory: 1_048_576,
    papers_from: "its PostScript PPD (HPLIP 3.22.10)",
    tray_words: "\
1 tray 2, 2 manual feed, 3 manual feed of envelopes, 4 tray 1 (option), 5 tray 3, 20\n\
#   tray 4 (option)",
};

const HP_LASERJET_P3005: ModelRow = ModelRow {
    word: "hp-laserjet-p3005",
    title: "HP LaserJet P3005",
    generation: Generation::LaserJet5,
    papers: PAPERS_WITH_A6,
    device_trays: FIVE_TRAYS,
    panel_trays: ONE_AND_FOUR,
    has_duplex: true,
    memory: 1_048_576,
    papers_from: "its PostScript PPD (HPLIP 3.22.10)",
    tray_words: "\
1 tray 2, 2 manual feed, 3 manual feed of envelopes, 4 tray 1, 5 tray 3 (option)",
};

const HP_LASERJET_P3015: ModelRow = ModelRow {
    word: "hp-laserjet-p3015",
    title: "HP LaserJet P3015",
    generation: Generation::LaserJet5,
    papers: PAPERS_WITH_A6,
    device_trays: &[1, 2, 3, 4, 5, 20],
    panel_trays: ONE_AND_FOUR,
    has_duplex: true,
    memory: 1_048_576,
    papers_from: "the PostScript PPD of the P3010 series (HPLIP 3.22.10)",
    tray_words: "\
1 tray 2, 2 manual feed, 3 manual feed of envelopes, 4 tray 1, 5 tray 3 (option), 20\n\
#   tray 4 (option)",
};

const HP_LASERJET_M605: ModelRow = ModelRow {
    word: "hp-laserjet-m605",
    title: "HP LaserJet M605",
    generation: Generation::LaserJet5,
    papers: PAPERS_WITH_A6,
    device_trays: &[1, 2, 3, 4, 5, 6, 20, 21, 22],
    panel_trays: ONE_AND_FOUR,
    has_duplex: true,
    memory: 1_048_576,
    papers_from: "its PostScript PPD (HPLIP 3.22.10)",
    tray_words: "\
1 tray 2, 2 manual feed, 3 manual feed of envelopes, 4 tray 1, 5 tray 3 (option), 6 the\n\
#   envelope feeder (option), 20 to 22 trays 4 to 6 (options)",
};

const BROTHER_HL_5350DN: ModelRow = ModelRow {
    word: "brother-hl-5350dn",
    title: "Brother HL-5350DN",
    generation: Generation::LaserJet5,
    papers: PAPERS_OF_BROTHER,
    device_trays: FIVE_TRAYS,
    panel_trays: ONE_AND_FOUR,
    has_duplex: true,
    memory: 1_048_576,
    papers_from: "\
its BR-Script PPD (openprinting-ppds 20230202). It is taken to lay\n\
#   pages out as HP does",
    tray_words: "\
1 tray 1, 2 manual feed, 3 manual feed of envelopes, 4 the MP tray, 5 tray 2 (option),\n\
#   as HP counts; its PPD numbers them otherwise",
};

const KYOCERA_FS_1020D: ModelRow = ModelRow {
    word: "kyocera-fs-1020d",
    title: "Kyocera FS-1020D",
    generation: Generation::LaserJet5,
    papers: PAPERS_OF_KYOCERA,
    device_trays: FIVE_TRAYS,
    panel_trays: ONE_AND_FOUR,
    has_duplex: true,
    memory: 1_048_576,
    papers_from: "\
its KPDL PPD (openprinting-ppds 20230202), which keeps more than 1/6\n\
#   inch free of envelopes and JIS B5: they are left out. It is taken to lay pages out as HP does",
    tray_words: "\
1 the cassette, 2 and 3 manual feed, 4 the MP tray, 5 cassette 2 (option), as HP\n\
#   counts; FRPO X9 changes this",
};

const LEXMARK_MS520: ModelRow = ModelRow {
    word: "lexmark-ms520",
    title: "Lexmark MS520",
    generation: Generation::LaserJet5,
    papers: PAPERS_WITH_A6,
    device_trays: &[1, 2, 3, 4, 5, 6, 8, 20],
    panel_trays: ONE_AND_EIGHT,
    has_duplex: true,
    memory: 1_048_576,
    papers_from: "\
its PostScript PPD (openprinting-ppds 20230202). It is taken to lay\n\
#   pages out as HP does",
    tray_words: "\
1 tray 1, 2 manual paper, 3 manual envelope, 4 tray 2, 5 tray 3, 6 the envelope feeder,\n\
#   8 the MP feeder, 20 tray 4. The panel (PCL Emul, Tray Renumber) shows and changes this",
};

const RICOH_SP_3710DN: ModelRow = ModelRow {
    word: "ricoh-sp-3710dn",
    title: "Ricoh SP 3710DN",
    generation: Generation::LaserJet5,
    papers: PAPERS_OF_RICOH,
    device_trays: ONE_AND_EIGHT,
    panel_trays: ONE_AND_EIGHT,
    has_duplex: true,
    memory: 1_048_576,
    papers_from: "\
its PCL 5 PPD (openprinting-ppds 20230202). It is taken to lay pages\n\
#   out as HP does",
    tray_words: "\
8 tray 1, 1 tray 2 (option); the bypass is left out. The list tray begins with 1, which\n\
#   stands for what the printer takes by itself",
};

const GENERIC: ModelRow = ModelRow {
    word: "generic",
    title: "a printer of PCL 5e that is not in this list",
    generation: Generation::LaserJet5,
    papers: &PAPERS,
    device_trays: &[1, 2, 3],
    panel_trays: &[1],
    has_duplex: false,
    memory: 262_144,
    papers_from: "not known, so each that has a name here",
    tray_words: "1 the usual tray, 2 manual feed, 3 manual feed of envelopes",
};
