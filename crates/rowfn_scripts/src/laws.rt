//! Laws of the meaning of scripts. The functions are empty: their contracts are the laws, proved.
ghost use Rattle.rowfn_scripts.specs.Fitting.{RefusesFaultsAlone, RefusesFaultsAfterAlone};
ghost use Rattle.rowfn_scripts.specs.Fitting.{TreesHaveTexts};
ghost use Rattle.rowfn_scripts.specs.Telling.{EachHasFullOutcome, FullOutcomesAreOne};
ghost use Rattle.rowfn_scripts.specs.Telling.{PrintsABeginning};

use vortex_rewriting::ScalarFnRules;

/// After lines that continue, `run` fails only with a row's fault: the trees match the columns, and
/// these have one length.
pub fn run_refuses_faults_alone<C: ScalarFnRules>()
    ensures { RefusesFaultsAlone C.meaning C.rules }
{}

/// After lines that continue, `run` with a number fails only with a fault of a row of the tree that
/// its run leads to, if a row of the last tree faults too.
pub fn run_after_refuses_faults_alone<C: ScalarFnRules>()
    ensures { RefusesFaultsAfterAlone C.meaning C.rules }
{}

/// After lines that continue, each tree has a text, which `show` prints.
pub fn trees_have_texts<C: ScalarFnRules>()
    ensures { TreesHaveTexts C.meaning C.rules }
{}

/// What is printed before memory runs out is a prefix of what is printed if it does not.
pub fn prints_a_beginning<C: ScalarFnRules>()
    ensures { PrintsABeginning C.meaning C.rules }
{}

/// Each script has an outcome if memory suffices: it always has a meaning.
pub fn each_has_full_outcome<C: ScalarFnRules>()
    ensures { EachHasFullOutcome C.meaning C.rules }
{}

/// If memory suffices a script has one outcome: its printed text and its ending are determined.
pub fn full_outcomes_are_one<C: ScalarFnRules>()
    ensures { FullOutcomesAreOne C.meaning C.rules }
{}
