//! The objects of a document that stand for themselves.

/// A part that stands for itself.
#[derive(Clone, Copy)]
pub(crate) enum FixedObject {
    /// What the pages use: faces, shades, patterns, and the verdict.
    Resources,
    /// An upright face.
    Upright,
    /// The same, bold.
    Bold,
    /// The same, italic.
    Italic,
    /// The same, both.
    BoldItalic,
    /// For characters of PC-8 that do not show.
    HiddenPc8,
    /// For those of PC-850.
    HiddenPc850,
    /// For those of Roman-8.
    HiddenRoman8,
    /// Pattern 1.
    Horizontal,
    /// Pattern 2.
    Vertical,
    /// Pattern 3.
    Rising,
    /// Pattern 4.
    Falling,
    /// Pattern 5.
    Cross,
    /// Pattern 6.
    DiagonalCross,
}

impl FixedObject {
    ghost use Rattle.std.specs.Prelude.{◌≡◌};
    ghost use Rattle.page_pdf.specs.FixedObjects.{fixed_object};

    /// The bytes of the part.
    #[tactic(auto, unfolding(crate::specs::FixedObjects::fixed_object))]
    pub(crate) fn bytes(self) -> &'static [u8]
        ensures { result.now ≡ fixed_object self }
    {
        match self {
            FixedObject::Resources => {
                b"<</Font<</F1 6 0 R/F2 7 0 R/F3 8 0 R/F4 9 0 R/G1 10 0 R/G2 11 0 R/G3 12 0 R>> \
                /ExtGState<</S0<</ca 1>> /S1<</ca .02>> /S2<</ca .1>> /S3<</ca .15>> /S4<</ca \
                .3>> /S5<</ca .45>> /S6<</ca .7>> /S7<</ca .9>> /S8<</ca 1>>>> /Pattern<</P1 13 \
                0 R /P2 14 0 R /P3 15 0 R /P4 16 0 R /P5 17 0 R /P6 18 0 R>> /XObject<</V 4 0 \
                R>>>>"
            }
            FixedObject::Upright => {
                b"<</Type/Font /Subtype/Type1 /BaseFont/Courier /Encoding/WinAnsiEncoding \
                /ToUnicode 19 0 R>>"
            }
            FixedObject::Bold => {
                b"<</Type/Font /Subtype/Type1 /BaseFont/Courier-Bold /Encoding/WinAnsiEncoding \
                /ToUnicode 19 0 R>>"
            }
            FixedObject::Italic => {
                b"<</Type/Font /Subtype/Type1 /BaseFont/Courier-Oblique \
                /Encoding/WinAnsiEncoding /ToUnicode 19 0 R>>"
            }
            FixedObject::BoldItalic => {
                b"<</Type/Font /Subtype/Type1 /BaseFont/Courier-BoldOblique \
                /Encoding/WinAnsiEncoding /ToUnicode 19 0 R>>"
            }
            FixedObject::HiddenPc8 => {
                b"<</Type/Font /Subtype/Type1 /BaseFont/Courier /Encoding/WinAnsiEncoding \
                /ToUnicode 20 0 R>>"
            }
            FixedObject::HiddenPc850 => {
                b"<</Type/Font /Subtype/Type1 /BaseFont/Courier /Encoding/WinAnsiEncoding \
                /ToUnicode 21 0 R>>"
            }
            FixedObject::HiddenRoman8 => {
                b"<</Type/Font /Subtype/Type1 /BaseFont/Courier /Encoding/WinAnsiEncoding \
                /ToUnicode 22 0 R>>"
            }
            FixedObject::Horizontal => {
                b"<</Type/Pattern /PatternType 1 /PaintType 1 /TilingType 1 /BBox[0 0 384 384] \
                /XStep 384 /YStep 384 /Resources<<>> /Matrix[.01 0 0 -.01 0 0] /Length \
                24>>\nstream\n48 w 0 192 m 384 192 l S\nendstream"
            }
            FixedObject::Vertical => {
                b"<</Type/Pattern /PatternType 1 /PaintType 1 /TilingType 1 /BBox[0 0 384 384] \
                /XStep 384 /YStep 384 /Resources<<>> /Matrix[.01 0 0 -.01 0 0] /Length \
                24>>\nstream\n48 w 192 0 m 192 384 l S\nendstream"
            }
            FixedObject::Rising => {
                b"<</Type/Pattern /PatternType 1 /PaintType 1 /TilingType 1 /BBox[0 0 384 384] \
                /XStep 384 /YStep 384 /Resources<<>> /Matrix[.01 0 0 -.01 0 0] /Length \
                64>>\nstream\n48 w -96 96 m 96 -96 l -96 480 m 480 -96 l 288 480 m 480 288 l \
                S\nendstream"
            }
            FixedObject::Falling => {
                b"<</Type/Pattern /PatternType 1 /PaintType 1 /TilingType 1 /BBox[0 0 384 384] \
                /XStep 384 /YStep 384 /Resources<<>> /Matrix[.01 0 0 -.01 0 0] /Length \
                64>>\nstream\n48 w -96 288 m 96 480 l -96 -96 m 480 480 l 288 -96 m 480 96 l \
                S\nendstream"
            }
            FixedObject::Cross => {
                b"<</Type/Pattern /PatternType 1 /PaintType 1 /TilingType 1 /BBox[0 0 384 384] \
                /XStep 384 /YStep 384 /Resources<<>> /Matrix[.01 0 0 -.01 0 0] /Length \
                42>>\nstream\n48 w 0 192 m 384 192 l 192 0 m 192 384 l S\nendstream"
            }
            FixedObject::DiagonalCross => {
                b"<</Type/Pattern /PatternType 1 /PaintType 1 /TilingType 1 /BBox[0 0 384 384] \
                /XStep 384 /YStep 384 /Resources<<>> /Matrix[.01 0 0 -.01 0 0] /Length \
                46>>\nstream\n48 w -96 -96 m 480 480 l -96 480 m 480 -96 l S\nendstream"
            }
        }
    }
}
