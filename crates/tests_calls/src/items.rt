//! The items of a job.

ghost use Rattle.std.specs.Prelude.{◌≡◌, ◌+◌, length, IfOk};
ghost use Rattle.pcl_lexer.specs.Lexing.Meaning.{Allows};

use pcl_items::{LexFault, OwnedItem, Place};
use pcl_lexer::{Lexed, Lexer};
use std::alloc::{AllocError, Allocator, Global};
use std::test::Fail;

/// What a lexer answers in place of a further item.
type Last = Result<Lexed<'static>, LexFault>;

/// Reads on to the first answer that is no item, and keeps copies of the items.
#[tactic(auto, using(pcl_lexer::proofs::Lexing::Pieces::total_kept))]
fn read_on<A: Allocator, B: Allocator>(
    kept: Global,
    lexer: &mut Lexer<A>,
    items: &mut Vec<(Place, OwnedItem), B>,
) -> Result<Last, AllocError>
    ensures ended { lexer.new.ended ≡ lexer.old.ended }
    ensures total { lexer.new.place + length lexer.new.rest ≡
        lexer.old.place + length lexer.old.rest }
    ensures feed { IfOk result (λ answer. Allows answer lexer.new) }
{
    loop {
        match lexer.next() {
            Ok(Lexed::Item(place, item)) => {
                let item = OwnedItem::copy_of(kept, &item)?;
                items.push((place, item))?;
            }
            Ok(Lexed::NeedMore) => return Ok(Ok(Lexed::NeedMore)),
            Ok(Lexed::End) => return Ok(Ok(Lexed::End)),
            Err(fault) => return Ok(Err(fault)),
        }
    }
}

/// The items of a job without a fault, of at most 4096 bytes.
pub fn items_of(alloc: Global, job: &[u8]) -> Result<Vec<(Place, OwnedItem)>, Fail> {
    if job.len() > 4096 {
        return Err(Fail::new("a job of more than 4096 bytes"));
    }
    let mut lexer = Lexer::new(alloc);
    lexer.feed(job)?;
    lexer.end_input();
    let mut items = Vec::new(alloc);
    match read_on(alloc, &mut lexer, &mut items)? {
        Ok(Lexed::End) => Ok(items),
        last => Err(Fail::new(format_args!("{last:?} behind the items of {job:?}"))),
    }
}
