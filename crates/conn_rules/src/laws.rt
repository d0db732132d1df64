//! Laws of the definitions. They compute nothing: what they say is in their clauses.

ghost use Rattle.conn_rules.specs.Laws.{HandlesAreTokens, KeptNodesAreRows, OpensGrant};
ghost use Rattle.conn_rules.specs.Laws.{OpensOnlyNarrow};

/// What a graph keeps of a node is what each tree that it stands for has of it.
pub fn kept_nodes_are_rows()
    ensures { KeptNodesAreRows }
{}

/// Behind a reply, a token was given exactly where the output has a handle, and that is the token.
pub fn handles_are_tokens()
    ensures { HandlesAreTokens }
{}

/// What an Open binds has the rights that its flags get under what its connection and the masks on
/// its way leave.
pub fn opens_grant()
    ensures { OpensGrant }
{}

/// What an Open binds has no right that its connection lacks, and none that the mask of a name on
/// its way lacks.
pub fn opens_only_narrow()
    ensures { OpensOnlyNarrow }
{}
