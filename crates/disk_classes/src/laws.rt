// Laws of classes.
ghost use Rattle.disk_classes.specs.Laws.{ClassesAreWhole, OpenClassesAreAbsent, LoneMembersCommit};
ghost use Rattle.disk_classes.specs.Laws.{LoneMembersStayApart, SidesStayApart, OnePageJoins, ClassesPart};
ghost use Rattle.disk_classes.specs.Laws.{PagesTellClasses, NotAllAreTogether, NotAllAreApart};

/// The classes are the finest partition in which two members that put one page are together, and the pages that a
/// crash leaves show all puts of a class or none, and none where a member of it hasn't ended.
pub fn class_laws()
    ensures whole { ClassesAreWhole }
    ensures absent { OpenClassesAreAbsent }
    ensures commits { LoneMembersCommit }
    ensures apart { LoneMembersStayApart }
    ensures sides { SidesStayApart }
    ensures joined { OnePageJoins }
    ensures part { ClassesPart }
    ensures pages { PagesTellClasses }
    ensures not_one { NotAllAreTogether }
    ensures not_each { NotAllAreApart }
{}
