ghost use Rattle.listing.specs.Theorems.{OneList, ListsCover};

// A condition has one list.
pub fn one_list()
    ensures { OneList }
{}

// A version has the condition exactly where it meets some product of its list.
pub fn lists_cover()
    ensures { ListsCover }
{}
