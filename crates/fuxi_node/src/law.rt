//! That the lines of a node alone tell where its run ends. The function does nothing; its contract is the law.

ghost use Rattle.std.specs.Prelude.{◌≡◌, ℕ, List};
ghost use Rattle.fuxi_io.specs.Lines.{InputLine};
ghost use Rattle.fuxi_node.specs.NodeRuns.{Node, Round, role_run, ending_from};

/// A run over lines ends where these say, whatever party it is of and whatever comes in its rounds.
pub fn runs_end_by_their_lines()
    ensures { (most before : ℕ) (n : Node) (rounds : List Round) (lines : List InputLine) → (role_run most before n rounds lines).ending ≡ ending_from before lines }
{}
