//! What a client asks of the channels of its sessions.

use wire::Channel;

/// What a client asks of both channels of a session (RFC 8881, section 18.36): records of 16,384
/// bytes, 16 operations a COMPOUND, 8 requests at once.
pub const CHANNEL: Channel = Channel {
    header_pad_size: 0,
    max_request_size: 16_384,
    max_response_size: 16_384,
    max_response_size_cached: 16_384,
    max_operations: 16,
    max_requests: 8,
    rdma_ird: None,
};
