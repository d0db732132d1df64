use fidl_names::Handle;

/// A message as it is served: the endpoint that it was sent on, its bytes and its handles.
#[derive(Clone, Copy)]
pub struct Message<'a> {
    pub endpoint: u32,
    pub bytes: &'a [u8],
    pub handles: &'a [Handle],
}
