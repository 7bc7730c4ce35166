/// Where no space stands beside a printed token, apart from what signs have by themselves.
#[derive(Clone, Copy, PartialEq, Eq)]
pub enum Space {
    Usual,
    NoneBefore,
    NoneAfter,
}
