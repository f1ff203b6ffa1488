//! Laws of faults: their contracts are what they say, and their bodies are empty.

ghost use Rattle.cpt_explain.specs.Laws.{NoFaultsWhereValid, OneFaultList};

/// A plan has no fault exactly where it is valid.
pub fn no_faults_where_valid()
    ensures { NoFaultsWhereValid }
{}

/// A plan has one list of faults.
pub fn one_fault_list()
    ensures { OneFaultList }
{}
