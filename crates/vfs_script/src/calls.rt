use fidl_names::Method;

/// A call that a script makes: it waits on its endpoint for the reply with its transaction id,
/// which is the number of its line. A Watch carries the endpoint `watcher`.
#[derive(Clone, Copy)]
pub struct Call {
    pub endpoint: u32,
    pub txid: u32,
    pub method: Method,
    pub watcher: Option<u32>,
}
