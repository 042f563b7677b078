// What `route` answers, and what is found before the figures are worked out.
use units::Millis;
use walk::Figures;

// The best chain's figures and how many contacts it has.
#[derive(Clone, Copy)]
pub struct Best {
    pub figures: Figures,
    pub count: usize,
}

// When the best chain delivers the file and how many contacts it has.
#[derive(Clone, Copy)]
pub struct Found {
    pub delivered: Millis,
    pub count: usize,
}
