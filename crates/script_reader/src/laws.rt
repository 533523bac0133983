ghost use Rattle.script_reader.specs.Laws.{
  LaterLinesChangeNothing,
  OrdersLeaveTheSame,
  AllLinesGo,
  StuckWithoutOrder,
  StuckNamesLeast,
};

/// Law: lines after a refused one don't change why it is refused, but by the names that clones among them place. (That
/// there are too many lines, or that `begin` is missing, is judged above this, of the whole script.)
pub fn later_lines_change_nothing()
    ensures { LaterLinesChangeNothing }
{}

/// Law: whatever the order in which lines go, each node has the same left when none can go on.
pub fn orders_leave_the_same()
    ensures { OrdersLeaveTheSame }
{}

/// Law: lines that aren't stuck all go, in every order.
pub fn all_lines_go()
    ensures { AllLinesGo }
{}

/// Law: lines are stuck exactly where they go in no order.
pub fn stuck_without_order()
    ensures { StuckWithoutOrder }
{}

/// Law: where lines are stuck, whatever the order in which they went, that is told by the least number of a line at
/// which a node stands.
pub fn stuck_names_least()
    ensures { StuckNamesLeast }
{}
