// The theorems on what is printed. Each function's contract is a theorem; the functions compute nothing.
ghost use Rattle.programs.specs.declared.options.Options.{Options as Chosen};
ghost use Rattle.programs.specs.Printed.{AccountOf, OneText};
ghost use Rattle.programs.specs.Reported.{ReportOf};

// The bytes on an input have one account.
pub fn bytes_decide_their_account()
    ensures { OneText AccountOf }
{}

// They have one report by the same options.
pub fn bytes_and_options_decide_a_report()
    ensures { (o : Chosen) → OneText (ReportOf o) }
{}
