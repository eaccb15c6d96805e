//! Members of the lists of link_afspec over borrowed bytes, by a module for each list.

pub mod af_spec_inet;
pub mod af_spec_inet6;
pub mod af_spec_mctp;
pub mod af_spec_unspec;
pub mod link_proto_info_inet6;

pub use af_spec_inet::BorrowedAfSpecInet;
pub use af_spec_inet6::BorrowedAfSpecInet6;
pub use af_spec_mctp::BorrowedAfSpecMctp;
pub use af_spec_unspec::BorrowedAfSpecUnspec;
pub use link_proto_info_inet6::BorrowedLinkProtoInfoInet6;
