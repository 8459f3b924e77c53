// Laws of what is printed.
ghost use Rattle.follow_command.specs.Laws.{NoneDiffer};

/// No answer is that another record is there under the number: those of one log never differ.
pub fn records_of_one_log_never_differ()
    ensures { NoneDiffer }
{}
