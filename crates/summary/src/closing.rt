//! The text of the summary.
ghost use Rattle.std.specs.Prelude.{◌≡◌, IfOk, OnOk, [], string_bytes};
ghost use Rattle.event_book.specs.NameLists.{name_cmp};
ghost use Rattle.summary_model.specs.SummaryText.{closing_text, claims_text, counts_text, with_writer, sorted_from};

use event_book::put_name;
use event_text::listed;
use pat_base::Name;
use std::alloc::{AllocError, Global};
use summary_model::Closing;

/// The seven lines of the summary, each with its line feed. It fails only for want of memory.
pub fn closing_text(alloc: Global, closing: &Closing) -> Result<String, AllocError>
    ensures { IfOk result (λ text. string_bytes text ≡ closing_text closing.now) }
{
    let names = writer_names(alloc, &closing.writers)?;
    let writers = listed(alloc, "none", &names)?;
    let counts = counts_text(alloc, closing, writers.as_str())?;
    let mut text = claims_text(alloc, closing)?;
    text.push_str(counts.as_str())?;
    Ok(text)
}

/// The four lines up to the claim of one writer.
fn claims_text(alloc: Global, closing: &Closing) -> Result<String, AllocError>
    ensures { IfOk result (λ text. string_bytes text ≡ claims_text closing.now) }
{
    let (end, premises, synchronous) = (closing.end, closing.premises, closing.synchronous);
    let two_writers = closing.two_writers;
    format!(in alloc;
        "end at {end}\npremises {premises}\nsynchronous {synchronous}\ntwo writers {two_writers}\n"
    )
}

/// The three lines from the list of writers on.
fn counts_text(alloc: Global, closing: &Closing, writers: &str) -> Result<String, AllocError>
    ensures { IfOk result (λ text. string_bytes text ≡ counts_text closing.now writers.now) }
{
    let (acknowledged, lost) = (closing.acknowledged, closing.lost);
    format!(in alloc; "writers {writers}\nacknowledged {acknowledged}\nlost {lost}\n")
}

/// The names of the servers that accept writes, in byte order.
fn writer_names(alloc: Global, writers: &[Option<Name>]) -> Result<Vec<Name>, AllocError>
    ensures { IfOk result (λ names. names.items ≡ sorted_from [] writers.now) }
{
    let mut names = Vec::new(alloc);
    for writer in writers {
        put_writer(&mut names, *writer)?;
    }
    Ok(names)
}

/// Puts the name at its place, where there is one.
fn put_writer(names: &mut Vec<Name>, writer: Option<Name>) -> Result<(), AllocError>
    ensures { OnOk result (names.new.items ≡ with_writer names.old.items writer) }
{
    match writer {
        None => Ok(()),
        Some(name) => put_name(names, name),
    }
}
