//! The commands that the sheet is made of.
ghost use Rattle.std.specs.Prelude.{◌≡◌, ◌++◌, OnOk};
ghost use Rattle.test_sheet.specs.Commands.{font_look, font_request, font_size, move_across};
ghost use Rattle.test_sheet.specs.Commands.{move_to, page_request, rectangle, sheet_settings};

use crate::parts::{Part, push_parts};
use device_profile::FontRequest;
use std::alloc::{AllocError, Allocator};

/// Appends one copy, on one side, from this tray, and that CR, LF and FF stand for themselves.
#[tactic(auto, unfolding(crate::specs::Commands::sheet_settings))]
pub(crate) fn push_sheet_settings<A: Allocator>(
    text: &mut Vec<u8, A>,
    tray: u32,
) -> Result<(), AllocError>
    ensures { OnOk result (text.new.items ≡ text.old.items ++ sheet_settings tray) }
{
    push_parts(
        text,
        &[
            Part::Words(b"\x1b&l1x0s"),
            Part::Number(tray),
            Part::Words(b"H\x1b&k0G"),
        ],
    )
}

/// Appends a size and an orientation, lines of 8/48 inch, and no top margin.
#[tactic(auto, unfolding(crate::specs::Commands::page_request))]
pub(crate) fn push_page_request<A: Allocator>(
    text: &mut Vec<u8, A>,
    size: u32,
    orientation: u32,
) -> Result<(), AllocError>
    ensures { OnOk result (text.new.items ≡ text.old.items ++ page_request size orientation) }
{
    push_parts(
        text,
        &[
            Part::Words(b"\x1b&l"),
            Part::Number(size),
            Part::Words(b"a"),
            Part::Number(orientation),
            Part::Words(b"o8c0E"),
        ],
    )
}

/// Appends the pitch and the height of a font of fixed spacing.
#[tactic(auto, unfolding(crate::specs::Commands::font_size))]
fn push_font_size<A: Allocator>(
    text: &mut Vec<u8, A>,
    request: &FontRequest,
) -> Result<(), AllocError>
    ensures { OnOk result (text.new.items ≡ text.old.items ++ font_size request.now) }
{
    push_parts(
        text,
        &[
            Part::Words(b"\x1b(s0p"),
            Part::Amount(request.pitch),
            Part::Words(b"h"),
            Part::Amount(request.height),
            Part::Words(b"v"),
        ],
    )
}

/// Appends the style, the stroke weight and the typeface of a font.
#[tactic(auto, unfolding(crate::specs::Commands::font_look))]
fn push_font_look<A: Allocator>(
    text: &mut Vec<u8, A>,
    request: &FontRequest,
) -> Result<(), AllocError>
    ensures { OnOk result (text.new.items ≡ text.old.items ++ font_look request.now) }
{
    push_parts(
        text,
        &[
            Part::Amount(request.style),
            Part::Words(b"s"),
            Part::SignedAmount(request.weight),
            Part::Words(b"b"),
            Part::Amount(request.typeface),
            Part::Words(b"T"),
        ],
    )
}

/// Appends the seven parts that select a font.
#[tactic(auto, unfolding(crate::specs::Commands::font_request))]
pub(crate) fn push_font_request<A: Allocator>(
    text: &mut Vec<u8, A>,
    request: &FontRequest,
) -> Result<(), AllocError>
    ensures { OnOk result (text.new.items ≡ text.old.items ++ font_request request.now) }
{
    push_parts(
        text,
        &[Part::Words(b"\x1b("), Part::Set(request.symbol_set)],
    )?;
    push_font_size(text, request)?;
    push_font_look(text, request)
}

/// Appends a move to a place, in dots from the logical page's corner.
#[tactic(auto, unfolding(crate::specs::Commands::move_to))]
pub(crate) fn push_move_to<A: Allocator>(
    text: &mut Vec<u8, A>,
    x: u32,
    y: u32,
) -> Result<(), AllocError>
    ensures { OnOk result (text.new.items ≡ text.old.items ++ move_to x y) }
{
    push_parts(
        text,
        &[
            Part::Words(b"\x1b*p"),
            Part::Number(x),
            Part::Words(b"x"),
            Part::Number(y),
            Part::Words(b"Y"),
        ],
    )
}

/// Appends a move to a column of dots.
#[tactic(auto, unfolding(crate::specs::Commands::move_across))]
pub(crate) fn push_move_across<A: Allocator>(
    text: &mut Vec<u8, A>,
    x: u32,
) -> Result<(), AllocError>
    ensures { OnOk result (text.new.items ≡ text.old.items ++ move_across x) }
{
    push_parts(
        text,
        &[Part::Words(b"\x1b*p"), Part::Number(x), Part::Words(b"X")],
    )
}

/// Appends a black rectangle of so many dots.
#[tactic(auto, unfolding(crate::specs::Commands::rectangle))]
pub(crate) fn push_rectangle<A: Allocator>(
    text: &mut Vec<u8, A>,
    width: u32,
    height: u32,
) -> Result<(), AllocError>
    ensures { OnOk result (text.new.items ≡ text.old.items ++ rectangle width height) }
{
    push_parts(
        text,
        &[
            Part::Words(b"\x1b*c"),
            Part::Number(width),
            Part::Words(b"a"),
            Part::Number(height),
            Part::Words(b"b0P"),
        ],
    )
}
