//! Macros: the id of which controls speak, the controls, and where an overlay begins.
#![tactic(auto, unfolding(crate::specs::Answers::Marks))]

ghost use Rattle.std.specs.Prelude.{◌≡◌, Some};
ghost use Rattle.device_profile.specs.declared.panel.Panel.{Panel};
ghost use Rattle.pcl_items.specs.Items.{amount};
ghost use Rattle.page_env.specs.Settings.{settings_at, state_at};
ghost use Rattle.page_env.specs.Effect.{first_finding};
ghost use Rattle.page_env.specs.Macros.{set_macro_id, control_of, control_checks, overlay_after};
ghost use Rattle.page_env.specs.Macros.{control_line, overlay_state, spend_item};
ghost use Rattle.page_env.specs.Answers.{result_finding, Steps};

use crate::cell::Cells;
use crate::cursor::Cursor;
use crate::finding::Finding;
use crate::number::{is_whole_between, whole_of};
use crate::page::{Env, JobSettings, Page};
use crate::stack::CursorStack;
use pcl_items::Number;

/// What a macro control does with the macro of the id in force (the manual's "Macro Control").
#[derive(Clone, Copy, PartialEq, Eq)]
pub enum Control {
    /// 0: begins its definition.
    Begin,
    /// 1: ends the definition that is open.
    End,
    /// 2: runs it, and what it sets stays.
    Execute,
    /// 3: runs it, and the settings return to what they were.
    Call,
    /// 4: has it run as each page is closed.
    EnableOverlay,
    /// 5: has none run as a page is closed.
    DisableOverlay,
    /// 6 and 7: deletes all macros.
    DeleteAll,
    /// 8: deletes it.
    Delete,
    /// 9: makes it temporary, as every macro is.
    MakeTemporary,
}

/// `&f#Y`: sets the id of which macro controls speak.
pub(crate) fn set_macro_id(page: &mut Page, n: Number) -> Result<(), Finding>
    ensures { Steps (λ s. set_macro_id s (amount n)) page.old page.new result }
{
    if !is_whole_between(0, 32_767, n) {
        return Err(Finding::BadValue);
    }
    page.env.job.macro_id = whole_of(n) as u16;
    Ok(())
}

/// The control of a value of `&f#X`, if it has one.
pub fn control_of(n: Number) -> Option<Control>
    ensures { result ≡ control_of (amount n) }
{
    if !is_whole_between(0, 9, n) {
        return None;
    }
    match whole_of(n) {
        0 => Some(Control::Begin),
        1 => Some(Control::End),
        2 => Some(Control::Execute),
        3 => Some(Control::Call),
        4 => Some(Control::EnableOverlay),
        5 => Some(Control::DisableOverlay),
        6 | 7 => Some(Control::DeleteAll),
        8 => Some(Control::Delete),
        9 => Some(Control::MakeTemporary),
        _ => None,
    }
}

/// Checks a control, where the macro of the id in force is known or not, and in a macro or not.
fn check_control(known: bool, in_macro: bool, control: Control) -> Result<(), Finding>
    ensures { result_finding result ≡ first_finding (control_checks known in_macro (Some control)) }
{
    match control {
        // No definition is open.
        Control::End => Err(Finding::NoMacro),
        Control::Execute | Control::Call | Control::EnableOverlay | Control::Delete if !known => {
            Err(Finding::NoMacro)
        }
        // These may stand in a macro.
        Control::Execute | Control::Call | Control::MakeTemporary => Ok(()),
        _ if in_macro => Err(Finding::InMacro),
        _ => Ok(()),
    }
}

/// Enables or disables an overlay, as a control does.
fn set_overlay(control: Control, job: &mut JobSettings)
    ensures { job.new ≡ record job.old { overlay = overlay_after (Some control) job.old } }
{
    match control {
        Control::EnableOverlay => job.overlay = Some(job.macro_id),
        Control::DisableOverlay | Control::DeleteAll => job.overlay = None,
        Control::Begin | Control::Delete => {
            if job.overlay == Some(job.macro_id) {
                job.overlay = None;
            }
        }
        Control::End | Control::Execute | Control::Call | Control::MakeTemporary => {}
    }
}

/// The own step of a control, where the macro of the id in force is known or not, and in a macro or
/// not. What it does with macros is not done here.
pub fn carry_out_control(
    known: bool,
    in_macro: bool,
    control: Option<Control>,
    page: &mut Page,
) -> Result<(), Finding>
    ensures { Steps (λ s. control_line known in_macro control s) page.old page.new result }
{
    let Some(control) = control else {
        return Err(Finding::BadValue);
    };
    check_control(known, in_macro, control)?;
    set_overlay(control, &mut page.env.job);
    Ok(())
}

/// Where the overlay of a page begins.
pub fn overlay_page(defaults: &Env, page: &Page) -> Page
    ensures { (panel : Panel) →
        overlay_state (settings_at panel defaults.now) (state_at panel page.now) ≡
        state_at panel result }
{
    Page {
        env: Env {
            fields: Cells {
                vmi: defaults.fields.vmi,
                font: defaults.fields.font,
                line_termination: defaults.fields.line_termination,
                ..page.env.fields
            },
            job: defaults.job,
        },
        cursor: Cursor::home(),
        stack: CursorStack::new(),
        marked: page.marked,
        raster: None,
        in_frame: false,
        items_left: page.items_left,
    }
}

/// Begins an item of a macro, where one may still be carried out.
#[inline(always)]
pub fn spend_item(page: &mut Page) -> Result<(), Finding>
    ensures { Steps spend_item page.old page.new result }
{
    match page.items_left {
        None => Ok(()),
        Some(0) => Err(Finding::ManyItems),
        Some(left) => {
            page.items_left = Some(left - 1);
            Ok(())
        }
    }
}
