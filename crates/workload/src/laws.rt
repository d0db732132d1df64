//! What holds of every generated workload.

ghost use Rattle.workload.specs.Laws.{WorkloadsAreScripts};

/// For 1 to 10,000 rounds the text of the workload is a script in mode auto, with no bad line,
/// short enough for one, and of three frames a round and two more. It computes nothing.
pub fn workloads_are_scripts()
    ensures { WorkloadsAreScripts }
{}
