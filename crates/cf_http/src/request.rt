use crate::bytes::Bytes;
use cf_http_heads::Route;

/// A request that has a route.
#[derive(Drop)]
pub struct Request {
    pub route: Route,
    pub body: Bytes,
}
