//! The faults of requests.
use crate::memory::NoMemory;
use client_model::Refusal;
use graph_verify::{GraphFault, VerifyFault};
use object_table::TableFault;
use pgm_images::PgmFault;
use std::alloc::AllocError;

/// The reason why a request wasn't done. The client's context is unchanged.
#[derive(Clone, Copy, PartialEq, Eq, Debug)]
pub enum RequestFault {
    /// The request is refused.
    Refused(Refusal),
    /// There is no memory.
    NoMemory,
}

impl From<Refusal> for RequestFault {
    ghost use Rattle.std.specs.Prelude.{◌≡◌};
    ghost use Rattle.client_contexts.specs.declared.fault.RequestFault.TheVariants.{Refused};

    ghost from_gives = { λ refusal fault. fault ≡ Refused refusal };

    fn from(refusal: Refusal) -> RequestFault {
        RequestFault::Refused(refusal)
    }
}

impl From<NoMemory> for RequestFault {
    ghost use Rattle.std.specs.Prelude.{◌≡◌};
    ghost use Rattle.client_contexts.specs.declared.fault.RequestFault.TheVariants as fault;

    ghost from_gives = { λ _ f. f ≡ fault.NoMemory };

    fn from(_fault: NoMemory) -> RequestFault {
        RequestFault::NoMemory
    }
}

impl From<AllocError> for RequestFault {
    ghost use Rattle.std.specs.Prelude.{◌≡◌};
    ghost use Rattle.client_contexts.specs.declared.fault.RequestFault.TheVariants as fault;

    ghost from_gives = { λ _ f. f ≡ fault.NoMemory };

    fn from(_error: AllocError) -> RequestFault {
        RequestFault::NoMemory
    }
}

impl From<PgmFault> for RequestFault {
    ghost use Rattle.std.specs.Prelude.{◌≡◌};
    ghost use Rattle.client_contexts.specs.Steps.{text_fault};

    ghost from_gives = { λ fault f. f ≡ text_fault fault };

    fn from(fault: PgmFault) -> RequestFault {
        match fault {
            PgmFault::NoMemory => RequestFault::NoMemory,
            PgmFault::InvalidFormat => RequestFault::Refused(Refusal::InvalidFormat),
            PgmFault::InvalidDimension => RequestFault::Refused(Refusal::InvalidDimension),
            PgmFault::InvalidValue => RequestFault::Refused(Refusal::InvalidValue),
        }
    }
}

impl From<TableFault> for RequestFault {
    ghost use Rattle.std.specs.Prelude.{◌≡◌};
    ghost use Rattle.client_contexts.specs.Steps.{table_fault};

    ghost from_gives = { λ fault f. f ≡ table_fault fault };

    fn from(fault: TableFault) -> RequestFault {
        match fault {
            TableFault::NoMemory => RequestFault::NoMemory,
            TableFault::InvalidReference => RequestFault::Refused(Refusal::InvalidReference),
            TableFault::NoResources => RequestFault::Refused(Refusal::NoResources),
            TableFault::InvalidValue => RequestFault::Refused(Refusal::InvalidValue),
        }
    }
}

impl From<GraphFault> for RequestFault {
    ghost use Rattle.std.specs.Prelude.{◌≡◌};
    ghost use Rattle.client_contexts.specs.Steps.{graph_fault};

    ghost from_gives = { λ fault f. f ≡ graph_fault fault };

    fn from(fault: GraphFault) -> RequestFault {
        match fault {
            GraphFault::NoMemory => RequestFault::NoMemory,
            GraphFault::NoResources => RequestFault::Refused(Refusal::NoResources),
            GraphFault::InvalidReference => RequestFault::Refused(Refusal::InvalidReference),
        }
    }
}

impl From<VerifyFault> for RequestFault {
    ghost use Rattle.std.specs.Prelude.{◌≡◌};
    ghost use Rattle.client_contexts.specs.Steps.{verify_fault};

    ghost from_gives = { λ fault f. f ≡ verify_fault fault };

    fn from(fault: VerifyFault) -> RequestFault {
        match fault {
            VerifyFault::NoMemory => RequestFault::NoMemory,
            VerifyFault::Refused(verdict) => RequestFault::Refused(Refusal::Rejected(verdict)),
        }
    }
}
