//! A law of the golden vectors' memory.
ghost use Rattle.test_definitions.specs.Memories.{MemoriesExist};

/// For each word, there is a memory with the cells that the loads and stores of this crate assume.
pub fn memories_exist()
    ensures { MemoriesExist }
{}
