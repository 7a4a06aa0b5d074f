//! Fragments, written as bytes.
ghost use Rattle.std.specs.Prelude.{◌≡◌, ◌++◌, OnOk};
ghost use Rattle.uc_run_file.specs.Spelling.{fragment_text, fragments_text};

use crate::sequences::push_numbers;
use crate::strings::push_string;
use std::alloc::{AllocError, Global};
use uc_run_entry::Fragment;
use uc_run_points::push_number;

/// Pushes a fragment. An `Err` may leave some of its bytes pushed.
#[tactic(auto, unfolding(crate::specs::Spelling::fragment_text))]
fn push_fragment(alloc: Global, bytes: &mut Vec<u8>, fragment: &Fragment) -> Result<(), AllocError>
    ensures { OnOk result (bytes.new.items ≡ bytes.old.items ++ fragment_text fragment.now) }
{
    let seqs = fragment.seqs().to_vec(alloc)?;
    push_string(bytes, fragment.begin())?;
    push_string(bytes, fragment.end())?;
    push_number(bytes, seqs.len() as u64)?;
    push_numbers(bytes, &seqs)?;
    Ok(())
}

/// Pushes fragments, one after the other. An `Err` may leave some of their bytes pushed.
pub(crate) fn push_fragments(
    alloc: Global,
    bytes: &mut Vec<u8>,
    fragments: &[Fragment],
) -> Result<(), AllocError>
    ensures { OnOk result (bytes.new.items ≡ bytes.old.items ++ fragments_text fragments.now) }
{
    for fragment in fragments {
        push_fragment(alloc, bytes, fragment)?;
    }
    Ok(())
}
