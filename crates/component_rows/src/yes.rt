//! Answers of yes counted.
ghost use Rattle.std.specs.Prelude.{◌≡◌, ◌<◌, ◌+◌, ◌^◌, if◌then◌else◌, length, map};
ghost use Rattle.std.specs.List.{Contains};
ghost use Rattle.component_rows.specs.Conformance.{how_many, yes_at};

// One more, where the answer is yes.
fn with_answer(count: usize, answer: bool) -> usize
    requires { count + 1 < 2 ^ 64 }
    ensures { result ≡ count + (if answer then 1 else 0) }
{
    if answer { count + 1 } else { count }
}

/// How many of the lists have a yes at the place. It takes no memory.
pub fn count_yes(answers: &[Vec<bool>], at: usize) -> usize
    requires { (a : _) → Contains answers.now a → at < length a.items }
    ensures { result ≡ yes_at at (map (λ a. a.items) answers.now) }
{
    let mut yes = 0;
    for list in answers {
        yes = with_answer(yes, list[at]);
    }
    yes
}

/// How many of the answers are yes. It takes no memory.
pub fn count_all(answers: &[bool]) -> usize
    ensures { result ≡ how_many answers.now }
{
    let mut yes = 0;
    for answer in answers {
        yes = with_answer(yes, *answer);
    }
    yes
}
