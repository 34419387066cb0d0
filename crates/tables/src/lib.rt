// Arithmetic modulo d on single bytes, by look-up in tables that are made once for a run.
#![tactic(auto)]

ghost use Rattle.std.specs.Prelude.{◌≡◌, ◌+◌, ◌*◌, ◌%◌, ◌<◌, ◌≤◌};
ghost use Rattle.modular.specs.Modular.{neg, tri};
ghost use Rattle.tables.specs.Tables.{RestsOf, MultiplesOf, ProductsOf, TrianglesOf};

use modular::Modulus;

// (Tried for these four: `array::from_fn`, whose entries only a proof over its calls, one by one, would give.)
fn rests(m: Modulus) -> [u8; 96]
    ensures { RestsOf m.d result }
{
    let mut rests = [0; 96];
    for k in 0..96 {
        rests[k] = m.reduce(k as u16);
    }
    rests
}

fn multiples(x: u16, m: Modulus) -> [u8; 32]
    requires { x < 32 }
    ensures { MultiplesOf m.d x result }
{
    let mut multiples = [0; 32];
    for y in 0..32 {
        multiples[y] = m.reduce(x * y as u16);
    }
    multiples
}

fn products(m: Modulus) -> [[u8; 32]; 32]
    ensures { ProductsOf m.d result }
{
    let mut products = [[0; 32]; 32];
    for x in 0..32 {
        products[x] = multiples(x as u16, m);
    }
    products
}

fn triangles(m: Modulus) -> [u8; 32]
    ensures { TrianglesOf m.d result }
{
    let mut triangles = [0; 32];
    for k in 0..32 {
        let x = k as u16;
        triangles[k] = m.reduce((x * x - x) / 2);
    }
    triangles
}

// The rests of 0 to 95, the products of the numbers below 32, and x(x − 1)/2 for each of these, modulo d.
#[derive(Drop)]
pub struct Tables {
    pub d: u8,
    rests: [u8; 96],
    products: [[u8; 32]; 32],
    triangles: [u8; 32],
    ghost low: { 3 ≤ d },
    ghost high: { d ≤ 31 },
    ghost rests_made: { RestsOf d rests },
    ghost products_made: { ProductsOf d products },
    ghost triangles_made: { TrianglesOf d triangles },
}

impl Tables {
    pub fn new(d: u8) -> Self
        requires low { 3 ≤ d }
        requires high { d ≤ 31 }
        ensures { result.d ≡ d }
    {
        let m = Modulus::new(d);
        Tables {
            d: m.d,
            rests: rests(m),
            products: products(m),
            triangles: triangles(m),
        }
    }

    // x + y
    pub fn sum(&self, x: u8, y: u8) -> u8
        requires x_below { x < self.now.d }
        requires y_below { y < self.now.d }
        ensures { result ≡ (x + y) % self.now.d }
    {
        self.rests[usize::from(x) + usize::from(y)]
    }

    // x + y + z
    pub fn sum_of_three(&self, x: u8, y: u8, z: u8) -> u8
        requires x_below { x < self.now.d }
        requires y_below { y < self.now.d }
        requires z_below { z < self.now.d }
        ensures { result ≡ (x + y + z) % self.now.d }
    {
        self.rests[usize::from(x) + usize::from(y) + usize::from(z)]
    }

    // x − y
    pub fn difference(&self, x: u8, y: u8) -> u8
        requires x_below { x < self.now.d }
        requires y_below { y < self.now.d }
        ensures { result ≡ (x + neg self.now.d y) % self.now.d }
    {
        self.rests[usize::from(x) + usize::from(self.d - y)]
    }

    // x·y, x at most d
    pub fn product(&self, x: u8, y: u8) -> u8
        requires x_within { x ≤ self.now.d }
        requires y_below { y < self.now.d }
        ensures { result ≡ x * y % self.now.d }
    {
        self.products[usize::from(x)][usize::from(y)]
    }

    // x(x − 1)/2
    pub fn triangle(&self, x: u8) -> u8
        requires { x < self.now.d }
        ensures { result ≡ tri x % self.now.d }
    {
        self.triangles[usize::from(x)]
    }
}
