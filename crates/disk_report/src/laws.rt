// Each function does nothing, and what it ensures is a law.
ghost use Rattle.disk_report.specs.Laws.{ReportReadsSo, LinesStandInOrder, LineTells};

/// What is printed of three disks: one with two faults, a blank one, and one without faults.
pub fn example_law()
    ensures { ReportReadsSo }
{}

/// Each fault of a disk has its line, behind those of the faults before it and before those of the faults after it;
/// and its line tells its place and rule.
pub fn line_law()
    ensures order { LinesStandInOrder }
    ensures tells { LineTells }
{}
