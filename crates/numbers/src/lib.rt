// Theory alone: numbers, sums and products below a bound, congruences, primes, roots of unity: definitions in specs/, laws in proofs/.
#![tactic(auto)]
