// How much the caller is to lend for so many slots of a block size: 0 where open takes no such slots or size.
ghost use Rattle.std.specs.Prelude.{◌≡◌};
ghost use Rattle.moachest.specs.Sizes.{workspace_words, workspace_bytes, scratch_bytes};

// Words of the workspace.
#[unsafe(no_mangle)]
pub extern "C" fn moachest_workspace_words(slots: usize) -> u64
    ensures { result ≡ workspace_words slots }
{
    moachest::sizes::workspace_words(slots)
}

// Bytes of the workspace.
#[unsafe(no_mangle)]
pub extern "C" fn moachest_workspace_bytes(slots: usize, size: usize) -> u64
    ensures { result ≡ workspace_bytes slots size }
{
    moachest::sizes::workspace_bytes(slots, size)
}

// Bytes of the scratch.
#[unsafe(no_mangle)]
pub extern "C" fn moachest_scratch_bytes(slots: usize, size: usize) -> u64
    ensures { result ≡ scratch_bytes slots size }
{
    moachest::sizes::scratch_bytes(slots, size)
}
