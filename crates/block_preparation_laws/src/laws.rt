//! Laws, each the contract of a function that does nothing.

ghost use Rattle.block_preparation_laws.specs.Kept.{PassesKeepSelections};
ghost use Rattle.block_preparation_laws.specs.Fit.{TempFunctionsFit, TempFunctionsHaveNames};

/// What selection keeps of a program, the passes over the blocks of the selected one keep.
pub fn passes_keep_selections()
    ensures { PassesKeepSelections }
{
    crate::selected_widths::laws::selected_blocks_are_within();
}

/// Each function over temporaries of a unit is small by the weight of the unit's function with its number.
pub fn temp_functions_fit()
    ensures { TempFunctionsFit }
{
    crate::selected_widths::laws::selected_blocks_are_within();
    crate::selected_widths::laws::selected_calls_are_narrow();
    crate::near_arguments::laws::selected_functions_are_near();
    block_pass_laws::argument_laws::laws::blocks_are_within_functions();
}

/// Each has the name of that function, which is one of an assembly.
pub fn temp_functions_have_names()
    ensures { TempFunctionsHaveNames }
{}
