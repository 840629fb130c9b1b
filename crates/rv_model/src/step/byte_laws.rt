//! A law about vector loads and stores, for each byte.
ghost use Rattle.rv_model.specs.accesses.TransferBytes.{LoadsByTransfer, StoresByTransfer};
ghost use Rattle.rv_model.specs.accesses.TransferBytes.{TransfersLieInFile};

/// After a vector load, each register byte has the value of the last transfer that covers it; after a vector store, so
/// has each byte of memory. A byte that no transfer covers is unchanged. The elements that a legal load or store moves
/// lie in the register file.
pub fn bytes_of_transfers()
    ensures loaded { LoadsByTransfer }
    ensures stored { StoresByTransfer }
    ensures inside { TransfersLieInFile }
{}
