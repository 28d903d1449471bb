// The theory of the planner: definitions in specs/, and the theorems over them, each named by a contract here. What the functions answer
// means nothing.
#![tactic(auto)]

ghost use Rattle.model.specs.Claims.{CourseLists, ForecastCounts};
ghost use Rattle.model.specs.SearchClaims.{FloorBounds, FoldSound, SearchCheapest, SearchCounts};
ghost use Rattle.model.specs.Stands.{VisitServes};
ghost use Rattle.model.specs.Searched.{TermsPrice, TermsCourse, SearchKeeps};

// A course passes each bay of its book once, whatever the picker answers.
pub fn course_lists_stands<P>() -> u8
    ensures { CourseLists P }
{
    0
}

// A forecast counts the states that its course leads to.
pub fn forecast_counts_stands() -> u8
    ensures { ForecastCounts }
{
    0
}

// The floor is at most what each completion costs, and is the cost of a plan where no bay is left.
pub fn floor_bounds_stands<P>() -> u8
    ensures { FloorBounds P }
{
    0
}

// Folding a bay keeps the least price.
pub fn fold_sound_stands<P>() -> u8
    ensures { FoldSound P }
{
    0
}

// A plan that a search finds costs the best, below the ceiling, and unless it stopped no plan costs less.
pub fn search_cheapest_stands<P>() -> u8
    ensures { SearchCheapest P }
{
    0
}

// A search makes no more visits than the forecast, and stops only at a limit below it.
pub fn search_counts_stands<P>() -> u8
    ensures { SearchCounts P }
{
    0
}

// A visit with terms that stand for others is the visit with those.
pub fn visit_serves_stands<P>() -> u8
    ensures { VisitServes P }
{
    0
}

// The terms of a book at the start cost what a plan costs.
pub fn terms_price_stands<P>() -> u8
    ensures { TermsPrice P }
{
    0
}

// The course of a book is the same by its terms as by its rules.
pub fn terms_course_stands<P>() -> u8
    ensures { TermsCourse P }
{
    0
}

// What a search of a book promises: the cheapest plan below the ceiling, or that there is none, within the forecast
// and the limit.
pub fn search_keeps_stands<P>() -> u8
    ensures { SearchKeeps P }
{
    0
}
