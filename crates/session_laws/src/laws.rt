//! What holds of every session, and of a worked row. The functions compute nothing: what they say is in their clauses.

ghost use Rattle.fidl_wire.specs.Names.{AreDistinct};
ghost use Rattle.vfs_journal.specs.Entries.{Journal};
ghost use Rattle.vfs_journal.specs.Lawful.{Lawful};
ghost use Rattle.vfs_journal.specs.Starts.{Start};
ghost use Rattle.journal_laws.specs.Soundness.{IsStart};
ghost use Rattle.session_laws.specs.Keeping.{KeepsLaws};
ghost use Rattle.session_laws.specs.LineageRow.{LineagesNameEachSet};

/// Each lawful journal over a sound start keeps the laws of order, rights, changes, answers, tokens, trees, endpoints in transit, watching,
/// replies and frames at each of its times; where no two names have equal ordinals.
pub fn lawful_journals_keep_laws()
    ensures { AreDistinct → (start : Start) (journal : Journal) → IsStart start → Lawful start journal → KeepsLaws start journal }
{}

/// What an Open that goes over two mounts sends on has in its trail the rights of the first
/// connection, then each mask and each mount's rights in the order in which it came through them.
/// What is opened on what it binds has in its lineage these, the masks behind the last mount, the
/// rights of what the first Open bound, and then its own; a Clone of that, and a watcher on it, have
/// all of these and then their own, and a name that is made there all nine rights before its own.
pub fn lineages_name_each_set()
    ensures { LineagesNameEachSet }
{}
