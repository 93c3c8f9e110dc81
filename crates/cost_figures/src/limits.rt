// Figures beside limits.
ghost use Rattle.std.specs.Prelude.{◌≡◌, find, nat_lt};
ghost use Rattle.cost_figures.specs.Limiting.{figure_of, limits_in_order};

use crate::figures::Figures;

/// Which of the figures is limited.
#[derive(Clone, Copy, Debug)]
pub enum Limit {
    /// `Figures::depth`
    Depth,
    /// `Figures::fields`
    Fields,
    /// `Figures::root_fields`
    RootFields,
    /// `Figures::aliases`
    Aliases,
    /// `Figures::directives`
    Directives,
    /// `Figures::height`
    Height,
    /// `Figures::distinct_root_fields`
    DistinctRootFields,
}

impl Limit {
    /// All limits, in the order in which they are compared.
    pub const ALL: [Limit; 7] = [
        Limit::Depth,
        Limit::Fields,
        Limit::RootFields,
        Limit::Aliases,
        Limit::Directives,
        Limit::Height,
        Limit::DistinctRootFields,
    ];
}

impl Figures {
    /// The figure that a limit is one of.
    pub fn limited_by(&self, limit: Limit) -> u64
        ensures { result ≡ figure_of limit self.now }
    {
        match limit {
            Limit::Depth => self.depth,
            Limit::Fields => self.fields,
            Limit::RootFields => self.root_fields,
            Limit::Aliases => self.aliases,
            Limit::Directives => self.directives,
            Limit::Height => self.height,
            Limit::DistinctRootFields => self.distinct_root_fields,
        }
    }

    /// The first limit that is exceeded, where `limits` has the greatest figures that are allowed.
    pub fn first_exceeded(&self, limits: &Figures) -> Option<Limit>
        ensures { result ≡ find (λ l. nat_lt (figure_of l limits.now) (figure_of l self.now)) limits_in_order }
    {
        self.first_exceeded_of(limits, &Limit::ALL)
    }

    fn first_exceeded_of(&self, limits: &Figures, order: &[Limit]) -> Option<Limit>
        ensures { result ≡ find (λ l. nat_lt (figure_of l limits.now) (figure_of l self.now)) order.now }
    {
        order.iter().copied().find(|limit| limits.limited_by(*limit) < self.limited_by(*limit))
    }
}
