//! Why a connection is not listened to any longer.

use thiserror::Error;

/// Why bytes of a stream are not taken.
#[derive(Clone, Copy, Debug, PartialEq, Eq, Error)]
pub enum RecordFault {
    /// A fragment's header brings the record above its limit.
    #[error("a record above 16384 bytes")]
    RecordTooBig,
    /// A fragment's header after the maximal number of fragments.
    #[error("a record of more than 64 fragments")]
    TooManyFragments,
    /// A whole record that holds no call.
    #[error("a record that is no call")]
    NotACall,
}
