//! The fixed parts of the other objects of a document.

/// A part that stands for itself.
#[derive(Clone, Copy)]
pub(crate) enum ObjectPart {
    /// Before the characters of a symbol set.
    MapStart,
    /// Behind them.
    MapEnd,
    /// Behind the number of an object.
    ObjectStart,
    /// Behind an object.
    ObjectEnd,
    /// Before the number of the object that has the length of a page.
    ContentStart,
    /// Behind it, before what marks the page.
    ContentStream,
    /// Behind that.
    ContentEnd,
    /// Before the sides of a page, the height first: the zero of its box is its upper left corner.
    Page,
    /// Between them.
    PageWidth,
    /// Before the number of what marks it.
    PageContent,
    /// Behind it.
    PageEnd,
    /// Before the number of a page, as readers show it.
    Label,
    /// Before how often it is printed.
    LabelCopies,
    /// Before on which sides.
    LabelSides,
    /// Before from which tray.
    LabelTray,
    /// Of a page on which the job fails.
    LabelFails,
    /// Behind that.
    LabelEnd,
    /// Before the labels of the pages.
    Catalog,
    /// Behind them.
    CatalogEnd,
    /// Before how many pages there are.
    Pages,
    /// Behind that, before their numbers.
    PagesKids,
    /// Behind these.
    PagesEnd,
    /// Between the number of a page and that of its label.
    Between,
    /// Behind the number of an object that is meant.
    Reference,
    /// Before the name of the job.
    Title,
    /// Between that and the name of the printer.
    Subject,
    /// Behind that.
    InformationEnd,
    /// Before the length of the verdict.
    Verdict,
    /// Before the verdict.
    VerdictStream,
    /// Behind it.
    VerdictEnd,
    /// Before how many objects there are, and one more.
    Table,
    /// Behind that, before the places of the objects.
    TableFree,
    /// Behind a place.
    TableEntry,
    /// Behind the places, before that number again.
    Trailer,
    /// Before where the table stands.
    TableStart,
    /// Behind it.
    FileEnd,
}

impl ObjectPart {
    ghost use Rattle.std.specs.Prelude.{◌≡◌};
    ghost use Rattle.page_pdf.specs.ObjectParts.{object_part};

    /// The bytes of the part.
    #[tactic(auto, unfolding(crate::specs::ObjectParts::object_part))]
    pub(crate) fn bytes(self) -> &'static [u8]
        ensures { result.now ≡ object_part self }
    {
        match self {
            ObjectPart::MapStart => {
                b"<</Length 1853>>\nstream\n/CIDInit /ProcSet findresource begin 12 dict begin \
                begincmap /CIDSystemInfo <</Registry(Adobe) /Ordering(UCS) /Supplement 0>> def \
                /CMapName /Codes def /CMapType 2 def 1 begincodespacerange <00> <ff> \
                endcodespacerange 1 beginbfrange <00> <ff> ["
            }
            ObjectPart::MapEnd => {
                b"] endbfrange endcmap CMapName currentdict /CMap defineresource pop end \
                end\nendstream"
            }
            ObjectPart::ObjectStart => b" 0 obj\n",
            ObjectPart::ObjectEnd => b"\nendobj\n",
            ObjectPart::ContentStart => b"<</Length ",
            ObjectPart::ContentStream => b" 0 R>>\nstream\n",
            ObjectPart::ContentEnd => b"\nendstream\nendobj\n",
            ObjectPart::Page => b"<</Type/Page/Parent 2 0 R/Resources 5 0 R/MediaBox[0 -",
            ObjectPart::PageWidth => b" ",
            ObjectPart::PageContent => b" 0]/Contents ",
            ObjectPart::PageEnd => b" 0 R>>",
            ObjectPart::Label => b"<</P(",
            ObjectPart::LabelCopies => b": copies ",
            ObjectPart::LabelSides => b", sides ",
            ObjectPart::LabelTray => b", tray ",
            ObjectPart::LabelFails => b": fails",
            ObjectPart::LabelEnd => b")>>",
            ObjectPart::Catalog => b"<</Type/Catalog/Pages 2 0 R/PageLabels<</Nums[",
            ObjectPart::CatalogEnd => b"]>>>>",
            ObjectPart::Pages => b"<</Type/Pages/Count ",
            ObjectPart::PagesKids => b"/Kids[",
            ObjectPart::PagesEnd => b"]>>",
            ObjectPart::Between => b" ",
            ObjectPart::Reference => b" 0 R ",
            ObjectPart::Title => b"<</Producer(pclcheck)/Title<",
            ObjectPart::Subject => b">/Subject<",
            ObjectPart::InformationEnd => b">>>",
            ObjectPart::Verdict => {
                b"<</Type/XObject /Subtype/Form /BBox[0 0 20000 30] /Resources<</Font<</F1 6 0 \
                R>>>> /Length "
            }
            ObjectPart::VerdictStream => b">>\nstream\nBT /F1 5 Tf 18 16 Td <",
            ObjectPart::VerdictEnd => b"> Tj ET\nendstream",
            ObjectPart::Table => b"xref\n0 ",
            ObjectPart::TableFree => b"\n0000000000 65535 f \n",
            ObjectPart::TableEntry => b" 00000 n \n",
            ObjectPart::Trailer => b"trailer\n<</Root 1 0 R/Info 3 0 R/Size ",
            ObjectPart::TableStart => b">>\nstartxref\n",
            ObjectPart::FileEnd => b"\n%%EOF\n",
        }
    }
}
