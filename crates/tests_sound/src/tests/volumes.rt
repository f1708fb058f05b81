use px_vol::{MAX, MUTED, NORM, cube, divide, dividing_is_undone, multiply};

const PRODUCTS: [(u32, u32, u32); 6] = [
    (49_152, 49_152, 36_864),
    (MAX, NORM, MAX),
    (MAX, MAX, MAX),
    (MUTED, MAX, 0),
    (1, 0x7fff, 0),
    (1, 0x8000, 1),
];

const QUOTIENTS: [(u32, u32, u32); 6] = [
    (1, 3, 21_845),
    (32_768, 65_536, 32_768),
    (5, 0, 0),
    (2, 3, 43_691),
    (MAX, 1, MAX),
    (1, MAX, 0),
];

// A volume, and its linear factor.
const CUBES: [(u32, u32); 7] = [
    (65_536, 65_536),
    (49_152, 27_648),
    (32_768, 8_192),
    (1_290, 0),
    (1_291, 1),
    (0x1f_ffff, 2_147_480_576),
    (0x20_0000, MAX),
];

#[test]
fn volumes_multiply_divide_and_cube(rt: HostRuntime) {
    dividing_is_undone();
    assert!(rt;
        PRODUCTS
            .iter()
            .all(|(a, b, product)| multiply(*a, *b) == *product)
            && QUOTIENTS
                .iter()
                .all(|(a, b, quotient)| divide(*a, *b) == *quotient)
            && CUBES
                .iter()
                .all(|(volume, factor)| cube(*volume) == *factor)
    );
}
