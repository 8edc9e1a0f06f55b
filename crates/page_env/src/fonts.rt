//! Font selection by characteristic.
#![tactic(auto, unfolding(crate::specs::Answers::Marks))]

ghost use Rattle.std.specs.Prelude.{◌≡◌};
ghost use Rattle.pcl_items.specs.Items.{amount};
ghost use Rattle.page_env.specs.Fonts.{set_symbol_set, set_spacing, set_pitch, set_height};
ghost use Rattle.page_env.specs.Fonts.{set_style, set_weight, set_typeface, default_font};
ghost use Rattle.page_env.specs.Answers.{CarriesOut, Steps};

use crate::finding::Finding;
use crate::number::{is_negative, is_whole_between, signed};
use crate::page::{FontParts, Page};
use device_profile::SymbolSet;
use pcl_items::Number;

/// `(#letter`: sets the symbol set of the font request.
pub(crate) fn set_symbol_set(page: &mut Page, n: Number, letter: u8) -> Result<(), Finding>
    ensures { Steps (λ s. set_symbol_set s (amount n) letter) page.old page.new result }
{
    if is_negative(n) {
        return Err(Finding::BadValue);
    }
    page.env.job.font.symbol_set = Some(SymbolSet {
        number: n.ten_thousandths,
        letter,
    });
    page.env.job.hmi = None;
    Ok(())
}

/// `(s#P`: sets the spacing of the font request, which is 0, fixed.
pub(crate) fn set_spacing(page: &mut Page, n: Number) -> Result<(), Finding>
    ensures { Steps (λ s. set_spacing s (amount n)) page.old page.new result }
{
    if !is_whole_between(0, 0, n) {
        return Err(Finding::BadValue);
    }
    page.env.job.font.spacing = Some(n.ten_thousandths);
    page.env.job.hmi = None;
    Ok(())
}

/// `(s#H`: sets the pitch of the font request, in characters an inch.
pub(crate) fn set_pitch(page: &mut Page, n: Number) -> Result<(), Finding>
    ensures { Steps (λ s. set_pitch s (amount n)) page.old page.new result }
{
    if is_negative(n) {
        return Err(Finding::BadValue);
    }
    page.env.job.font.pitch = Some(n.ten_thousandths);
    page.env.job.hmi = None;
    Ok(())
}

/// `(s#V`: sets the height of the font request, in points.
pub(crate) fn set_height(page: &mut Page, n: Number) -> Result<(), Finding>
    ensures { Steps (λ s. set_height s (amount n)) page.old page.new result }
{
    if is_negative(n) {
        return Err(Finding::BadValue);
    }
    page.env.job.font.height = Some(n.ten_thousandths);
    page.env.job.hmi = None;
    Ok(())
}

/// `(s#S`: sets the style of the font request.
pub(crate) fn set_style(page: &mut Page, n: Number) -> Result<(), Finding>
    ensures { Steps (λ s. set_style s (amount n)) page.old page.new result }
{
    if is_negative(n) {
        return Err(Finding::BadValue);
    }
    page.env.job.font.style = Some(n.ten_thousandths);
    page.env.job.hmi = None;
    Ok(())
}

/// `(s#T`: sets the typeface of the font request.
pub(crate) fn set_typeface(page: &mut Page, n: Number) -> Result<(), Finding>
    ensures { Steps (λ s. set_typeface s (amount n)) page.old page.new result }
{
    if is_negative(n) {
        return Err(Finding::BadValue);
    }
    page.env.job.font.typeface = Some(n.ten_thousandths);
    page.env.job.hmi = None;
    Ok(())
}

/// `(s#B`: sets the stroke weight of the font request, which may be negative.
pub(crate) fn set_weight(page: &mut Page, n: Number) -> Result<(), Finding>
    ensures { Steps (λ s. set_weight s (amount n)) page.old page.new result }
{
    page.env.job.font.weight = Some(signed(n));
    page.env.job.hmi = None;
    Ok(())
}

/// `(3@`: every part of the font request is the panel's again.
pub(crate) fn default_font(page: &mut Page) -> Result<(), Finding>
    ensures { Steps default_font page.old page.new result }
{
    page.env.job.font = FontParts::none();
    page.env.job.hmi = None;
    Ok(())
}
