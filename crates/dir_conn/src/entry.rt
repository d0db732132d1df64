ghost use Rattle.std.specs.Prelude.{◌≡◌, ◌&&◌, ◌||◌, true, false, not, IsTrue, IfOk, ◌∷◌, []};
ghost use Rattle.std.specs.Result.{result_err};
ghost use Rattle.std.specs.Str.{bytes_eq};
ghost use Rattle.fidl_names.specs.declared.statuses.Status.TheVariants as status;
ghost use Rattle.io_flags.specs.Grants.{asked_rights, explicit_rights};
ghost use Rattle.io_rights.specs.declared.operations.Operation.TheVariants as op;
ghost use Rattle.io_rights.specs.Operations.{is_within, single};
ghost use Rattle.path_walk.specs.Names.{dot};
ghost use Rattle.path_walk.specs.Paths.{names_of};
ghost use Rattle.conn_rules.specs.Births.{born};
ghost use Rattle.conn_rules.specs.Opens.{entry_refusals};
ghost use Rattle.fidl_names.specs.First.{first_of};
ghost use Rattle.conn_rules.specs.Refusals.{lacks};

use conn_rules::Birth;
use fidl_names::Status;
use io_flags::{OpenFlags, asked};
use io_rights::{Operation, Rights};
use path_walk::{Path, is_dot};

/// An Open that is refused by none of the tests before the walk.
#[derive(Drop)]
pub(crate) struct Entered<'a> {
    pub flags: OpenFlags,
    pub path: Path<'a>,
}

/// Tests what can be tested before the walk; the first refusal.
#[tactic(auto, using(path_walk::proofs::PathLemmas::path_complete))]
pub(crate) fn enter<'a>(birth: &Birth, text: &'a [u8], word: u64) -> Result<Entered<'a>, Status>
    ensures refusal { result_err result ≡ first_of (entry_refusals (born birth.now) word text.now) }
    ensures flags { IfOk result (λ entered. entered.flags ≡ word) }
    ensures path { IfOk result (λ entered. entered.path ≡ names_of text.now) }
    ensures explicit { IfOk result
        (λ _. IsTrue (is_within (explicit_rights word) birth.now.rights)) }
{
    let flags = match OpenFlags::check(word) {
        Ok(flags) => flags,
        Err(fault) => return Err(fault.status()),
    };
    let path = match Path::check(text) {
        Ok(path) => path,
        Err(_) => return Err(Status::InvalidArgs),
    };
    if lacks_rights(birth.rights, text, flags) {
        return Err(Status::AccessDenied);
    }
    Ok(Entered { flags, path })
}

/// A path other than `.` wants TRAVERSE, and every path what the flags ask for.
#[tactic(auto, using(io_rights::proofs::OperationSets::within_trans))]
fn lacks_rights(have: Rights, text: &[u8], flags: OpenFlags) -> bool
    ensures lacks { result ≡
        ((not (bytes_eq text.now dot) && lacks have (single op.Traverse)) || lacks have
        (asked_rights flags)) }
    ensures explicit { result ≡ false → IsTrue (is_within (explicit_rights flags) have) }
{
    if !is_dot(text) && !Rights::of(Operation::Traverse).within(have) {
        return true;
    }
    !asked(flags).within(have)
}
