ghost use Rattle.map_rows.specs.NodeRows.{NodeRows};

/// Missing names, depths and cycles.
pub fn node_rows()
    ensures { NodeRows }
{}
