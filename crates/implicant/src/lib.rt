// Implicants of conditions: primes, essential primes, and sets of products as functions of the variables.
#![tactic(auto)]

ghost use Rattle.implicant.specs.Theorems.{PrimeBothWays, EssentialBothWays, PrimesCover, PrimeRecursion, LevelsOfOptions, SignsAreVersions, VersionsAreSigns, SetsHaveProducts, ProductsMakeSets, PrimesHaveOneSet, PrimesAreProductSet, MasksAreWords, MasksAreVersions, NodesVary, ListedOnce, PrimesListed};
ghost use Rattle.implicant.specs.Examples.{XorPrimes, CyclePrimes, YesPrimes, NoPrimes};

// The primes of a condition are its maximal implicants.
pub fn primes_read_both_ways()
    ensures { PrimeBothWays }
{}

// A prime is essential exactly where the sum of the others differs from the condition.
pub fn essential_reads_both_ways()
    ensures { EssentialBothWays }
{}

// A version has the condition exactly where it meets some prime.
pub fn primes_cover()
    ensures { PrimesCover }
{}

// The primes by those of both halves and of their "and".
pub fn primes_recur()
    ensures { PrimeRecursion }
{}

// The two levels of an option.
pub fn options_have_levels()
    ensures { LevelsOfOptions }
{}

// Conditions, and functions of the signs alone, correspond.
pub fn signs_are_versions()
    ensures condition { SignsAreVersions }
    ensures function { VersionsAreSigns }
{}

// Sets of products, and product sets, correspond.
pub fn product_sets_have_products()
    ensures products { SetsHaveProducts }
    ensures set { ProductsMakeSets }
{}

// The primes of a condition have one function, which is a product set.
pub fn primes_are_a_product_set()
    ensures one { PrimesHaveOneSet }
    ensures set { PrimesAreProductSet }
{}

// A function of the variables answers at the masks of a product as at its words, and at the mask of a version as at the version.
pub fn masks_are_read()
    ensures products { MasksAreWords }
    ensures versions { MasksAreVersions }
{}

// The working nodes of the primes are the working functions that are not constant.
pub fn working_nodes_vary()
    ensures { NodesVary }
{}

// The list of a set has each of its products once, in rising number; that of the primes' set has the primes.
pub fn products_are_listed()
    ensures once { ListedOnce }
    ensures primes { PrimesListed }
{}

// The primes of a^b, of a&!b|b&!c|c&!a, of yes and of no.
pub fn examples_stand()
    ensures xor { XorPrimes }
    ensures cycle { CyclePrimes }
    ensures yes { YesPrimes }
    ensures no { NoPrimes }
{}
