//! Items that are kept.

ghost use Rattle.std.specs.Prelude.{◌≡◌, ◌≤◌, length, IfOk};
ghost use Rattle.pcl_items.specs.Escapes.Value.{most_data};
ghost use Rattle.pcl_items.specs.PjlLines.View.{pjl_view, owned_pjl_view};
ghost use Rattle.pcl_items.specs.PjlLines.Canon.{IsSpelledPjl};
ghost use Rattle.std.proofs.Props.{props};

use crate::item::{Data, Item, PjlLine, SimpleItem, TextByte};
use crate::pcl::command::DataCommand;
use crate::pjl::PjlCommand;
use std::alloc::{AllocError, Allocator, Global};

/// Bytes behind a command, kept.
#[derive(Drop)]
pub struct OwnedData<A: Allocator = Global> {
    pub bytes: Vec<u8, A>,
    /// There are at most 32767.
    pub ghost within: { length bytes.items ≤ most_data },
}

/// What a line of the job language says, its text kept.
#[derive(Drop)]
pub enum OwnedPjlCommand<A: Allocator = Global> {
    /// No word.
    Bare,
    /// `COMMENT`, and any text or none.
    Remark(Vec<u8, A>),
    /// `JOB`, and its names or none.
    JobBegins(Vec<u8, A>),
    /// `EOJ`, and its name or none.
    JobEnds(Vec<u8, A>),
    /// `ENTER LANGUAGE=PCL`
    EnterPcl,
}

/// A line of the job language as an item that is kept.
#[derive(Drop)]
pub struct OwnedPjlLine<A: Allocator = Global> {
    pub command: OwnedPjlCommand<A>,
    /// Some text of at most 1024 bytes with its newline spells it.
    pub ghost spelled: { IsSpelledPjl (owned_pjl_view command) } by { Prim.hlevel props },
}

/// One item of a job with data of its own.
#[derive(Drop)]
pub enum OwnedItem<A: Allocator = Global> {
    /// A byte of text.
    Text(TextByte),
    /// A control code, or an escape sequence without data.
    Simple(SimpleItem),
    /// A command with the data that its number counts.
    WithData(DataCommand, OwnedData<A>),
    /// A line of the job language.
    PjlLine(OwnedPjlLine<A>),
}

impl<A: Allocator> OwnedItem<A> {
    ghost use Rattle.pcl_items.specs.Items.{view};
    ghost use Rattle.pcl_items.specs.Owned.{owned_view};

    /// A copy of an item, with its data.
    pub fn copy_of(alloc: A, item: &Item<'_>) -> Result<OwnedItem<A>, AllocError>
        ensures { IfOk result (λ copy. owned_view copy ≡ view item.now) }
    {
        match item {
            Item::Text(byte) => Ok(OwnedItem::Text(*byte)),
            Item::Simple(item) => Ok(OwnedItem::Simple(*item)),
            Item::WithData(command, data) => {
                let bytes = bytes_of(alloc, data.bytes)?;
                Ok(OwnedItem::WithData(*command, OwnedData { bytes }))
            }
            Item::PjlLine(spelled) => {
                let command = kept_pjl(alloc, spelled.command)?;
                Ok(OwnedItem::PjlLine(OwnedPjlLine { command }))
            }
        }
    }

    /// The item, its data lent: the library's surface for other programs that keep items.
    pub fn as_item(&self) -> Item<'_>
        ensures { view result ≡ owned_view self.now }
    {
        match self {
            OwnedItem::Text(byte) => Item::Text(*byte),
            OwnedItem::Simple(item) => Item::Simple(*item),
            OwnedItem::WithData(command, data) => Item::WithData(
                *command,
                Data {
                    bytes: data.bytes.as_slice(),
                },
            ),
            OwnedItem::PjlLine(spelled) => Item::PjlLine(PjlLine {
                command: lent_pjl(&spelled.command),
            }),
        }
    }
}

/// A copy of bytes.
fn bytes_of<A: Allocator>(alloc: A, bytes: &[u8]) -> Result<Vec<u8, A>, AllocError>
    ensures { IfOk result (λ copy. copy.items ≡ bytes.now) }
{
    let mut copy = Vec::new(alloc);
    copy.extend_from_slice(bytes)?;
    Ok(copy)
}

/// A copy of what a line of the job language says, with its text.
fn kept_pjl<A: Allocator>(
    alloc: A,
    command: PjlCommand<'_>,
) -> Result<OwnedPjlCommand<A>, AllocError>
    ensures { IfOk result (λ copy. owned_pjl_view copy ≡ pjl_view command.entry) }
{
    match command {
        PjlCommand::Bare => Ok(OwnedPjlCommand::Bare),
        PjlCommand::Remark(text) => Ok(OwnedPjlCommand::Remark(bytes_of(alloc, text)?)),
        PjlCommand::JobBegins(text) => Ok(OwnedPjlCommand::JobBegins(bytes_of(alloc, text)?)),
        PjlCommand::JobEnds(text) => Ok(OwnedPjlCommand::JobEnds(bytes_of(alloc, text)?)),
        PjlCommand::EnterPcl => Ok(OwnedPjlCommand::EnterPcl),
    }
}

/// What it says, its text lent.
fn lent_pjl<A: Allocator>(command: &OwnedPjlCommand<A>) -> PjlCommand<'_>
    ensures { pjl_view result ≡ owned_pjl_view command.now }
{
    match command {
        OwnedPjlCommand::Bare => PjlCommand::Bare,
        OwnedPjlCommand::Remark(text) => PjlCommand::Remark(text.as_slice()),
        OwnedPjlCommand::JobBegins(text) => PjlCommand::JobBegins(text.as_slice()),
        OwnedPjlCommand::JobEnds(text) => PjlCommand::JobEnds(text.as_slice()),
        OwnedPjlCommand::EnterPcl => PjlCommand::EnterPcl,
    }
}
