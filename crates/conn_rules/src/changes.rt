ghost use Rattle.std.specs.Prelude.{◌≡◌};
ghost use Rattle.conn_rules.specs.Answers.{nothing_told};
ghost use Rattle.conn_rules.specs.Served.{told_by};

/// A name in a directory, by the directory's number.
#[derive(Clone, Copy)]
pub struct At<'a> {
    pub dir: u64,
    pub name: &'a [u8],
}

/// What the watchers of directories are told of a request, in this order: a name is gone, a name is
/// new, a directory is gone.
#[derive(Clone, Copy)]
pub struct Changes<'a> {
    pub removed: Option<At<'a>>,
    pub added: Option<At<'a>>,
    pub deleted: Option<u64>,
}

impl<'a> Changes<'a> {
    /// Nothing.
    pub fn none() -> Changes<'a>
        ensures { told_by result ≡ nothing_told }
    {
        Changes {
            removed: None,
            added: None,
            deleted: None,
        }
    }
}
