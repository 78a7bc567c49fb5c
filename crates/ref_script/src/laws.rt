//! What the definitions say together, beside any code.

ghost use Rattle.std.specs.Prelude.{◌≡◌, ℕ, List, None};
ghost use Rattle.ref_base.specs.declared.config.Config.{Config};
ghost use Rattle.ref_script.specs.declared.script_step.ScriptStep.{ScriptStep};
ghost use Rattle.ref_script.specs.Scripts.{IsScript};
ghost use Rattle.ref_base.specs.Graphs.{Graph};
ghost use Rattle.ref_script.specs.GraphTexts.{DeclaresGraph};
ghost use Rattle.ref_script.specs.TextFaults.{script_fault, graph_fault};

// promise: run_script: nothing in the grammar of scripts is refused
/// A text that spells a script has no fault: nothing in the grammar is refused.
pub fn a_script_has_no_fault()
    ensures { (text : List ℕ) (config : Config) (steps : List ScriptStep) → IsScript text config steps
        → script_fault text ≡ None }
{}

// promise: run_script: a text spells one script at most
/// A text spells at most one script.
pub fn a_text_spells_one_script()
    ensures { (text : List ℕ) (c d : Config) (r s : List ScriptStep) → IsScript text c r → IsScript text d s
        → (c ≡ d) × (r ≡ s) }
{}

// promise: strength_text: nothing in the grammar of graph texts is refused
/// A text that declares a graph has no fault: nothing in the grammar is refused.
pub fn a_graph_text_has_no_fault()
    ensures { (text : List ℕ) (graph : Graph) → DeclaresGraph text graph → graph_fault text ≡ None }
{}

// promise: strength_text: a text declares one graph at most
/// A text declares at most one graph.
pub fn a_text_declares_one_graph()
    ensures { (text : List ℕ) (g h : Graph) → DeclaresGraph text g → DeclaresGraph text h → g ≡ h }
{}
