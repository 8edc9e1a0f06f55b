//! Renders the items of a job one after another, as they are read.
ghost use Rattle.std.specs.Prelude.{◌≡◌, ℕ, [], IfOk, IfErr, IsFalse};
ghost use Rattle.pcl_items.specs.declared.fault.LexCause.{LexCause};
ghost use Rattle.pcl_items.specs.declared.item.Mode.{Mode};
ghost use Rattle.pcl_items.specs.declared.item.Mode.TheVariants.{Pcl};
ghost use Rattle.pcl_items.specs.Items.{at, view};
ghost use Rattle.pcl_lexer.specs.Modes.{mode_of};
ghost use Rattle.pcl_lexer.specs.Reading.{Whole, Stopped};
ghost use Rattle.renderings.specs.Expected.{IsOver, Renders, Rendering};
ghost use Rattle.streams.specs.Errors.{is_err_of_write};
ghost use Rattle.renderings.specs.Carriers.Rendering.{MayCome, RendersItem, Ended, StaysIn};
ghost use Rattle.renderings.specs.Carriers.Rendering.{RendersDecided, GoesOn, IsErrorOfRendering};
ghost use Rattle.renderings.specs.Carriers.Rendered.{CanRender, IsCutOff, IsRendered, RendersOn};

use crate::outcome::Outcome;
use pcl_items::{Item, LexFault, Place};
use pcl_lexer::{Lexed, Lexer};
use std::alloc::Allocator;
use streams::{Consumer, Error, Outlet, Source, read_job, write_kept};

/// What is written of the items of a job, and what comes of it.
///
/// Text goes behind what is kept, and may be written with it.
pub trait Renderer {
    // What is due of the rest of a job, from where the renderer stands.
    ghost rendering: { Self → Rendering };

    // An item that the mode admits may come next.
    ghost is_in: { Self → Mode → Type 0 };

    /// Renders an item; an outcome means that nothing behind it matters.
    fn item<W: Outlet, A: Allocator>(
        &mut self,
        outlet: &mut W,
        kept: &mut Vec<u8, A>,
        place: Place,
        item: &Item<'_>,
    ) -> Result<Option<Outcome>, Error>
        requires working { IsFalse (W.state outlet.old).failed }
        requires admitted { MayCome is_in self.old (view item.now) }
        ensures rendered { RendersItem (rendering self.old) (rendering self.new)
            (at place (view item.now))
            (W.state outlet.old) (W.state outlet.new) kept.old.items kept.new.items result }
        ensures mode { StaysIn is_in self.old self.new (view item.now) result }
        ensures status { (W.state outlet.new).failed ≡ is_err_of_write result }
        ensures err { IfErr result IsErrorOfRendering };

    /// Renders the end of the bytes, which is their number.
    fn end<W: Outlet, A: Allocator>(
        &mut self,
        outlet: &mut W,
        kept: &mut Vec<u8, A>,
        place: Place,
    ) -> Result<Outcome, Error>
        requires working { IsFalse (W.state outlet.old).failed }
        requires ready { (mode : Mode) × is_in self.old mode }
        ensures rendered { Ended (rendering self.old) (λ reading. reading ≡ Whole [] place)
            (W.state outlet.old) (W.state outlet.new) kept.old.items kept.new.items result }
        ensures status { (W.state outlet.new).failed ≡ is_err_of_write result }
        ensures err { IfErr result IsErrorOfRendering };

    /// Renders a fault of the bytes.
    fn fault<W: Outlet, A: Allocator>(
        &mut self,
        outlet: &mut W,
        kept: &mut Vec<u8, A>,
        fault: LexFault,
    ) -> Result<Outcome, Error>
        requires working { IsFalse (W.state outlet.old).failed }
        ensures rendered { Ended (rendering self.old)
            (λ reading. reading ≡ Stopped [] fault.place fault.cause)
            (W.state outlet.old) (W.state outlet.new) kept.old.items kept.new.items result }
        ensures status { (W.state outlet.new).failed ≡ is_err_of_write result }
        ensures err { IfErr result IsErrorOfRendering };

    // A fault that stands first is all that is due, and so is what it adds.
    ghost adds_at_fault: { (renderer : Self) (place : ℕ) (cause : LexCause) →
        (rendering renderer).text (Stopped [] place cause)
        ≡ (rendering renderer).at_fault [] place cause };

    // Where a renderer goes on, what is due goes by what follows.
    ghost rest_matters: { (renderer : Self) → IsOver (rendering renderer) → ⊥ };
}

/// Renders an item of any kind.
// A call of its own, which has all kinds of items.
#[inline(never)]
fn render_other<R: Renderer, W: Outlet, A: Allocator>(
    renderer: &mut R,
    outlet: &mut W,
    kept: &mut Vec<u8, A>,
    place: Place,
    item: &Item<'_>,
) -> Result<Option<Outcome>, Error>
    requires working { IsFalse (W.state outlet.old).failed }
    requires admitted { MayCome R.is_in renderer.old (view item.now) }
    ensures rendered { RendersItem (R.rendering renderer.old) (R.rendering renderer.new)
        (at place (view item.now))
        (W.state outlet.old) (W.state outlet.new) kept.old.items kept.new.items result }
    ensures mode { StaysIn R.is_in renderer.old renderer.new (view item.now) result }
    ensures status { (W.state outlet.new).failed ≡ is_err_of_write result }
    ensures err { IfErr result IsErrorOfRendering }
{
    renderer.item(outlet, kept, place, item)
}

/// Renders the items that the bytes fed so far decide, `total` in number. None: they decide no
/// more.
fn render_items<R: Renderer, W: Outlet, A: Allocator>(
    lexer: &mut Lexer<A>,
    renderer: &mut R,
    outlet: &mut W,
    kept: &mut Vec<u8, A>,
    total: u64,
) -> Result<Option<Outcome>, Error>
    requires working { IsFalse (W.state outlet.old).failed }
    requires mode { R.is_in renderer.old (mode_of lexer.old.context) }
    ensures came { RendersDecided lexer.old lexer.new total result
        (R.rendering renderer.old) (R.rendering renderer.new)
        (W.state outlet.old) (W.state outlet.new) kept.old.items kept.new.items }
    ensures read { GoesOn (R.is_in renderer.new) lexer.old lexer.new result }
    ensures status { (W.state outlet.new).failed ≡ is_err_of_write result }
    ensures err { IfErr result IsErrorOfRendering }
{
    loop {
        // Most items are commands, and what renders one knows that it is.
        if let Some(read) = lexer.next_command() {
            let rendered = renderer.item(outlet, kept, read.place, &Item::Simple(read.item))?;
            match rendered {
                None => continue,
                Some(outcome) => return Ok(Some(outcome)),
            }
        }
        match lexer.next() {
            Ok(Lexed::Item(place, item)) => {
                let rendered = render_other(renderer, outlet, kept, place, &item)?;
                match rendered {
                    None => {}
                    Some(outcome) => return Ok(Some(outcome)),
                }
            }
            Ok(Lexed::NeedMore) => return Ok(None),
            Ok(Lexed::End) => {
                let outcome = renderer.end(outlet, kept, total)?;
                return Ok(Some(outcome));
            }
            Err(fault) => {
                let outcome = renderer.fault(outlet, kept, fault)?;
                return Ok(Some(outcome));
            }
        }
    }
}

/// Renders a job as it is taken.
#[derive(Drop)]
struct JobRenderer<'t, R: Renderer, A: Allocator> {
    renderer: &'t mut R,
    lexer: Lexer<A>,
    /// Text that is to be written before the next read.
    kept: Vec<u8, A>,
    /// How many bytes were fed.
    total: u64,
}

impl<R: Renderer, A: Allocator> JobRenderer<'_, R, A> {
    /// Renders the items that the bytes fed so far decide, and writes all of it. None: they decide
    /// no more.
    fn render_decided<W: Outlet>(&mut self, outlet: &mut W) -> Result<Option<Outcome>, Error>
        requires working { IsFalse (W.state outlet.old).failed }
        requires mode { R.is_in self.old.renderer.now (mode_of self.old.lexer.context) }
        ensures came { RendersDecided self.old.lexer self.new.lexer self.old.total result
            (R.rendering self.old.renderer.now) (R.rendering self.new.renderer.now)
            (W.state outlet.old) (W.state outlet.new) self.old.kept.items [] }
        ensures kept { IfOk result (λ _. self.new.kept.items ≡ []) }
        ensures read { GoesOn (R.is_in self.new.renderer.now) self.old.lexer self.new.lexer result }
        ensures total { self.new.total ≡ self.old.total }
        ensures status { (W.state outlet.new).failed ≡ is_err_of_write result }
        ensures err { IfErr result IsErrorOfRendering }
    {
        let (lexer, kept) = (&mut self.lexer, &mut self.kept);
        let came = render_items(lexer, self.renderer, outlet, kept, self.total)?;
        write_kept(outlet, kept)?;
        Ok(came)
    }
}

impl<R: Renderer, W: Outlet, A: Allocator> Consumer<W> for JobRenderer<'_, R, A> {
    ghost use Rattle.renderings.specs.Carriers.Rooms.{renderer_leaves};

    type Answer = Outcome;

    ghost has_room = { λ now more. CanRender (R.is_in now.0.renderer.now)
        (W.state now.1).failed now.0.kept.items now.0.total now.0.lexer more };

    ghost goes_on = { λ first bytes now. RendersOn (R.rendering first.0.renderer.now)
        (W.state first.1)
        (R.is_in now.0.renderer.now) bytes (R.rendering now.0.renderer.now) (W.state now.1)
        now.0.kept.items first.0.total now.0.total now.0.lexer };

    ghost answers = { λ first outcome pieces now. IsRendered (R.rendering first.0.renderer.now)
        (W.state first.1) pieces (W.state now.1) outcome };

    ghost stops = { λ first error bytes now. IsCutOff (R.rendering first.0.renderer.now)
        (W.state first.1) bytes (W.state now.1) error };

    fn piece(&mut self, outlet: &mut W, piece: &[u8]) -> Result<Option<Outcome>, Error> {
        self.lexer.feed(piece)?;
        self.total += piece.len() as u64;
        self.render_decided(outlet)
    }

    fn end(&mut self, outlet: &mut W) -> Result<Outcome, Error> {
        self.lexer.end_input();
        match self.render_decided(outlet)? {
            Some(outcome) => Ok(outcome),
            None => unreachable!(),
        }
    }

    ghost leaves_room = { λ first bytes now room more has goes fits.
        renderer_leaves bytes room more has goes fits };
}

/// Reads a job to its end, and renders its items as they are read. What is rendered is written
/// before the next read.
pub fn render_job<S: Source, R: Renderer, W: Outlet, A: Allocator + Copy>(
    alloc: A,
    reader: &mut S,
    renderer: &mut R,
    writer: &mut W,
) -> Result<Outcome, Error>
    requires reading { IsFalse (S.state reader.old).failed }
    requires writing { IsFalse (W.state writer.old).failed }
    requires mode { R.is_in renderer.old Pcl }
    ensures { Renders (R.rendering renderer.old) (S.state reader.old) (S.state reader.new)
        (W.state writer.old) (W.state writer.new) result }
{
    let mut teller = JobRenderer {
        renderer,
        lexer: Lexer::new(alloc),
        kept: Vec::new(alloc),
        total: 0,
    };
    read_job(reader, &mut teller, writer)
}
