//! The line of a root.
ghost use Rattle.std.specs.Prelude.{◌≡◌, ◌++◌, OnOk};
ghost use Rattle.lr_rootlines.specs.RootLines.{state_word, root_head, root_counts, root_line};

use lr_roots::RootState;
use lr_spec::OutOfMemory;
use lr_text::put_number;

fn state_word(state: RootState) -> &'static [u8]
    ensures { result.now ≡ state_word state }
{
    match state {
        RootState::Active => b"active",
        RootState::Retired => b"retired",
        RootState::Expired => b"expired",
        RootState::Deleted => b"deleted",
    }
}

// Adds the front of a root's line.
fn put_root_head(out: &mut Vec<u8>, root: u32, state: RootState) -> Result<(), OutOfMemory>
    ensures { OnOk result (out.new.items ≡ out.old.items ++ root_head root state) }
{
    out.extend_from_slice(b"root ")?;
    put_number(out, u64::from(root))?;
    out.extend_from_slice(b" ")?;
    out.extend_from_slice(state_word(state))?;
    Ok(())
}

// Adds the counts of a root's line.
fn put_root_counts(out: &mut Vec<u8>, images: u32, chunks: u64) -> Result<(), OutOfMemory>
    ensures { OnOk result (out.new.items ≡ out.old.items ++ root_counts images chunks) }
{
    out.extend_from_slice(b" images ")?;
    put_number(out, u64::from(images))?;
    out.extend_from_slice(b" chunks ")?;
    put_number(out, chunks)?;
    out.extend_from_slice(b"\n")?;
    Ok(())
}

/// Adds the line of a root: its number, its state, and how many manifest keys and chunk keys it has. It ends with LF.
#[tactic(auto, unfolding(crate::specs::RootLines::root_line))]
pub fn put_root_line(
    out: &mut Vec<u8>,
    root: u32,
    state: RootState,
    images: u32,
    chunks: u64,
) -> Result<(), OutOfMemory>
    ensures { OnOk result (out.new.items ≡ out.old.items ++ root_line root state images chunks) }
{
    put_root_head(out, root, state)?;
    put_root_counts(out, images, chunks)
}
